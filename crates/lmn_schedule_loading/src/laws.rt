//! Laws of loading.
ghost use Rattle.lmn_schedule_loading.specs.Laws.{LoadingSettles, LoadedRules, EmptyStores};

/// The process of a plain settles to that of the solid that is loaded. Its rules are those of the plain's table. A
/// new store is empty.
pub fn loading_settles()
    ensures settles { LoadingSettles }
    ensures rules { LoadedRules }
    ensures empty { EmptyStores }
{}
