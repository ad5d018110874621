ghost use Rattle.std.specs.Prelude.{◌≡◌, ◌<◌, ◌-◌, ◌^◌, List, IfOk};
ghost use Rattle.lmn_congruence.specs.Rules.{Name};
ghost use Rattle.lmn_order.specs.Answers.{AnswersBelow};
ghost use Rattle.lmn_schedule.specs.Held.{AreNames, CanBeLoaded, EngineCanTurn, HoldsSolid};
ghost use Rattle.lmn_store_web.specs.WebHeaps.{heap_of};

use lmn_base::{NoMemory, Plain};
use lmn_debug_counting::CountingStore;
use lmn_guards::GuardPlan;
use lmn_order::Chooser;
use lmn_schedule::Engine;
use lmn_schedule_loading::{LoadFault, loading_settles};
use lmn_store_web::WebStore;
use std::alloc::Global;

/// What an engine is made of that holds the first process: so it can be made again.
#[derive(Drop)]
pub(crate) struct Beginning<'p, F> {
    pub(crate) plain: &'p Plain,
    pub(crate) plans: &'p [GuardPlan],
    pub(crate) choose: F,
    pub(crate) size: u64,
}

impl<'p, F: Fn(u64, u64) -> u64 + Copy + Drop> Beginning<'p, F> {
    /// An engine that has made no commit.
    pub(crate) fn engine(
        &self,
        alloc: Global,
    ) -> Result<Engine<'p, CountingStore<WebStore>, F>, NoMemory>
        requires plain { CanBeLoaded self.now.plain.now self.now.plans.now }
        requires chooser { AnswersBelow F.pre F.post self.now.choose }
        requires size { self.now.size < 2 ^ 64 - 1 }
        ensures holds { IfOk result (λ e. (names : List Name) → AreNames names self.now.plain.now → HoldsSolid names self.now.plain.now (heap_of e.machine.store)) }
        ensures run { IfOk result (λ e. EngineCanTurn (heap_of e.machine.store) self.now.plain.now.rules e.codes e.size) }
        ensures keeps { IfOk result (λ e. (e.plain.now ≡ self.now.plain.now) × (e.chooser.f ≡ self.now.choose) × (e.size ≡ self.now.size) × (e.commits ≡ 0)) }
    {
        loading_settles();
        let store = WebStore::for_rules(alloc, self.plain.rules.as_slice())?;
        let counting = CountingStore::new(store);
        match Engine::load(
            alloc,
            self.plain,
            self.plans,
            counting,
            Chooser::new(self.choose),
            self.size,
        ) {
            Ok(engine) => Ok(engine),
            // The first process was loaded with this size before.
            Err(LoadFault::Size(_)) => Err(NoMemory),
            Err(LoadFault::NoMemory) => Err(NoMemory),
        }
    }
}
