//! Runs over both stores, by each line.
ghost use Rattle.std.specs.Prelude.{◌≡◌, ◌<◌};
ghost use Rattle.lmn_schedule_loading.specs.Loaded.{IsEmpty};
ghost use Rattle.lmn_schedule.specs.Held.{CanBeLoaded};

use crate::reading::read_of;
use crate::texts::{BUDGET, DEFAULTS, OPTIONS, Row, SIZE};
use lmn_app_drive::{RunEnd, RunOptions, drive};
use lmn_app_reading::Accepted;
use lmn_base::{Names, Rows};
use lmn_io::MemSink;
use lmn_machine::Steps;
use lmn_order::{Chooser, Order};
use lmn_schedule::Engine;
use lmn_schedule_loading::loading_settles;
use lmn_store_slab::SlabStore;
use lmn_store_trait::LinkStore;
use lmn_store_web::WebStore;
use std::alloc::AllocGlobal;
use std::marker::Brand;
use std::process::Abort;
use std::sync::ledger::{Blank, Ledger};

/// Runs an accepted text in a new store, with the line of each process, and tells how it ends.
fn written_in<S: LinkStore + Drop, L: Ledger>(
    rt: &(impl Abort + AllocGlobal),
    accepted: &Accepted,
    names: &Names,
    row: &Row,
    folded: bool,
    store: S,
    out: &mut MemSink,
    blank: Blank,
) -> RunEnd
    requires accepted { CanBeLoaded accepted.now.plain accepted.now.plans }
    requires store { IsEmpty (S.heap store) }
    requires name { blank.name ≡ L.name }
    requires parts { blank.parts ≡ L.parts }
    requires some { 0 < blank.parts }
{
    loading_settles();
    assert!(rt; row.size < 1_000_000_000);
    assert!(rt; row.budget < 1_000_000_000);
    let order = row.order;
    let chooser = Chooser::new(
        |t: u64, m: u64| -> u64
            requires { 0 < m }
            ensures { result < m }
        { order.choose(t, m) },
    );
    let loaded = Engine::load(
        rt.alloc(),
        &accepted.plain,
        accepted.plans.as_slice(),
        store,
        chooser,
        row.size,
    );
    let mut engine = loaded.expect(rt, "loaded");
    let mut steps = Steps::<L>::new(blank);
    let options = RunOptions {
        trace: true,
        folded,
        budget: row.budget,
    };
    drive(
        rt.alloc(),
        &mut engine,
        &accepted.plain,
        names,
        &options,
        out,
        &mut steps,
    )
}

/// Runs an accepted text in a new store, with the line of each process, and tells how it ends.
fn lines_in<S: LinkStore + Drop>(
    rt: &(impl Abort + AllocGlobal),
    accepted: &Accepted,
    names: &Names,
    row: &Row,
    folded: bool,
    store: S,
    out: &mut MemSink,
) -> RunEnd
    requires accepted { CanBeLoaded accepted.now.plain accepted.now.plans }
    requires store { IsEmpty (S.heap store) }
{
    written_in::<_, Brand>(rt, accepted, names, row, folded, store, out, Blank::new(1))
}

/// Runs a text over each store, in the plain or the folded form.
fn run_row(rt: &(impl Abort + AllocGlobal), row: &Row, folded: bool) {
    loading_settles();
    let mut names = Names::new(rt.alloc());
    let accepted = read_of(rt, &mut names, row.text);
    let mut in_slabs = MemSink::new(rt.alloc(), 100_000, Rows::new(rt.alloc())).expect(
        rt, "memory",
    );
    let slabs = SlabStore::new(rt.alloc()).expect(rt, "memory");
    let slab_end = lines_in(rt, &accepted, &names, row, folded, slabs, &mut in_slabs);
    let mut in_web = MemSink::new(rt.alloc(), 100_000, Rows::new(rt.alloc())).expect(rt, "memory");
    let web = WebStore::new(rt.alloc()).expect(rt, "memory");
    let web_end = lines_in(rt, &accepted, &names, row, folded, web, &mut in_web);
    assert_eq!(rt; web_end, slab_end);
    assert_eq!(rt; in_web.taken(), in_slabs.taken());
    assert!(rt; in_web.taken().len() > 0);
    assert!(rt; in_web.taken().len() < 100_000);
}

/// Runs a text over each store, in both forms.
fn run_alike(rt: &(impl Abort + AllocGlobal), row: &Row) {
    run_row(rt, row, false);
    run_row(rt, row, true);
}

#[test]
fn texts_run_alike(rt: HostRuntime) {
    for text in DEFAULTS {
        let row = Row {
            text: *text,
            order: Order::First,
            budget: BUDGET,
            size: SIZE,
        };
        run_alike(&rt, &row);
    }
    for row in OPTIONS {
        run_alike(&rt, row);
    }
}
