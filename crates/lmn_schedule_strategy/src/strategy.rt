//! The search of the strategy: the first membrane that is asked and has a rule that succeeds, and its first such rule.
ghost use Rattle.std.specs.Prelude.{◌≡◌, ◌<◌, ◌≤◌, ◌+◌, [], ◌∷◌, IsTrue, IsFalse, IfSome, MatchOption, length};
ghost use Rattle.lmn_store_heap.specs.Heap.{IsMem, mem_mark_of, rules_in};
ghost use Rattle.lmn_store_heap.specs.Sound.{Forest, IsTree, Valid, flat};
ghost use Rattle.lmn_store_trait.specs.Awake.{IsNextAwake, NoneAwake};
ghost use Rattle.lmn_schedule_strategy.specs.Choosing.{AllInOrder, AreAskedInVain, AreAskedUpTo, CanTurn, CodeSucceeds, NoneOf, IsFirstRule, HasFound, Lulled, Lulls, asked};
ghost use Rattle.lmn_schedule_strategy.specs.Between.{between};
ghost use Rattle.lmn_schedule_strategy.specs.Quieting.{CanAsk, SleepsRightly};
ghost use Rattle.lmn_schedule_strategy.specs.Counting.{CountsAmong, CountsAsked, CountsUpTo, awake_of};

use lmn_instr_pool::Codes;
use lmn_machine::{Machine, Steps};
use lmn_store_trait::{ASLEEP, AWAKE, LinkStore};
use std::sync::ledger::Ledger;

/// The rule that fires next, and where.
#[derive(Clone, Copy)]
pub struct Choice<M> {
    /// The membrane in which it fires.
    pub membrane: M,
    /// Its place in the list of rules of this membrane, counted from 0.
    pub place: u64,
    /// Its number in the table of rules.
    pub rule: u32,
}

/// Whether the code of the head of a rule succeeds in a membrane. The registers then hold its first success.
#[inline(always)]
fn succeeds<S: LinkStore, L: Ledger>(
    machine: &mut Machine<S>,
    codes: &Codes,
    membrane: S::Mem,
    rule: u32,
    steps: &mut Steps<L>,
) -> bool
    requires turn { CanTurn (S.heap machine.old.store) (length codes.now) }
    requires order { AllInOrder codes.now }
    requires membrane { IsMem (S.heap machine.old.store) (S.mem_id membrane) }
    requires rule { rule < length codes.now }
    ensures same { S.heap machine.new.store ≡ S.heap machine.old.store }
    ensures found { IsTrue result → HasFound S.atom_id S.mem_id (S.heap machine.old.store) codes.now (S.mem_id membrane) rule machine.new.set }
    ensures none { IsFalse result → CodeSucceeds (S.heap machine.old.store) codes.now (S.mem_id membrane) rule → ⊥ }
    ensures steps { steps.new ≡ steps.old + 1 }
{
    let code = codes.code(rule);
    machine.find(&code, membrane, steps)
}

/// The first rule of a membrane whose code succeeds. The registers then hold its first success.
#[inline(always)]
fn first_rule<S: LinkStore, L: Ledger>(
    machine: &mut Machine<S>,
    codes: &Codes,
    membrane: S::Mem,
    steps: &mut Steps<L>,
) -> Option<Choice<S::Mem>>
    requires turn { CanTurn (S.heap machine.old.store) (length codes.now) }
    requires order { AllInOrder codes.now }
    requires membrane { IsMem (S.heap machine.old.store) (S.mem_id membrane) }
    ensures same { S.heap machine.new.store ≡ S.heap machine.old.store }
    ensures first { MatchOption result
        (NoneOf (S.heap machine.old.store) codes.now (S.mem_id membrane) (rules_in (S.heap machine.old.store) (S.mem_id membrane)))
        (λ c. IsFirstRule (S.heap machine.old.store) codes.now (S.mem_id c.membrane) c.place c.rule) }
    ensures membrane { IfSome result (λ c. c.membrane ≡ membrane) }
    ensures found { IfSome result (λ c. HasFound S.atom_id S.mem_id (S.heap machine.old.store) codes.now (S.mem_id c.membrane) c.rule machine.new.set) }
    ensures steps { MatchOption result (CountsUpTo (length (rules_in (S.heap machine.old.store) (S.mem_id membrane))) steps.old steps.new) (λ c. CountsUpTo (c.place + 1) steps.old steps.new) }
{
    let rules = machine.store().rules(membrane);
    if rules == 0 {
        return None;
    }
    let mut place = 0;
    // Each rule is read before it is known whether another one is, so that the first is looked up where their number was.
    let mut rule = machine.store().rule(membrane, 0);
    loop {
        if succeeds(machine, codes, membrane, rule, steps) {
            return Some(Choice {
                membrane,
                place,
                rule,
            });
        }
        place += 1;
        if place >= rules {
            return None;
        }
        rule = machine.store().rule(membrane, place);
    }
}

/// A membrane falls asleep if it may.
fn lull<S: LinkStore>(machine: &mut Machine<S>, membrane: S::Mem, sleep: bool)
    requires { IsMem (S.heap machine.old.store) (S.mem_id membrane) }
    ensures lulled { Lulled sleep (S.heap machine.old.store) (S.heap machine.new.store) (S.mem_id membrane) }
    ensures registers { machine.new.set ≡ machine.old.set }
{
    if sleep {
        machine.store_mut().set_mem_mark(membrane, ASLEEP);
    }
}

/// The first rule of a membrane that is awake whose code succeeds. Where none does it falls asleep, if it may. The registers
/// then hold the first success of the code.
#[inline(always)]
fn ask<S: LinkStore, L: Ledger>(
    machine: &mut Machine<S>,
    codes: &Codes,
    membrane: S::Mem,
    sleep: bool,
    steps: &mut Steps<L>,
) -> Option<Choice<S::Mem>>
    requires turn { CanTurn (S.heap machine.old.store) (length codes.now) }
    requires sleeps { SleepsRightly (S.heap machine.old.store) codes.now }
    requires order { AllInOrder codes.now }
    requires membrane { IsMem (S.heap machine.old.store) (S.mem_id membrane) }
    requires awake { mem_mark_of (S.heap machine.old.store) (S.mem_id membrane) ≡ AWAKE }
    ensures turn { CanTurn (S.heap machine.new.store) (length codes.now) }
    ensures sleeps { SleepsRightly (S.heap machine.new.store) codes.now }
    ensures lulls { MatchOption result
        (Lulls sleep (S.heap machine.old.store) (S.heap machine.new.store) (S.mem_id membrane ∷ []))
        (λ c. S.heap machine.new.store ≡ S.heap machine.old.store) }
    ensures first { MatchOption result
        (NoneOf (S.heap machine.old.store) codes.now (S.mem_id membrane) (rules_in (S.heap machine.old.store) (S.mem_id membrane)))
        (λ c. IsFirstRule (S.heap machine.old.store) codes.now (S.mem_id c.membrane) c.place c.rule) }
    ensures membrane { IfSome result (λ c. c.membrane ≡ membrane) }
    ensures found { IfSome result (λ c. HasFound S.atom_id S.mem_id (S.heap machine.new.store) codes.now (S.mem_id c.membrane) c.rule machine.new.set) }
    ensures steps { CountsAmong (S.heap machine.old.store) codes.now (awake_of (S.heap machine.old.store) (S.mem_id membrane ∷ [])) steps.old steps.new }
{
    match first_rule(machine, codes, membrane, steps) {
        Some(choice) => Some(choice),
        None => {
            lull(machine, membrane, sleep);
            None
        }
    }
}

/// A membrane that is awake, with its number in preorder.
#[derive(Clone, Copy)]
struct Awake<M> {
    number: u64,
    membrane: M,
}

/// The first membrane that is awake, with its number, of those with a number of at least `at` in preorder. The root has 0.
#[inline(always)]
#[tactic(auto, using(crate::proofs::Rooted::root_mem, crate::proofs::Rooted::root_next))]
fn awake_from<S: LinkStore>(store: &mut S, at: u64) -> Option<(u64, S::Mem)>
    requires { Valid (S.heap store.old) }
    ensures same { S.heap store.new ≡ S.heap store.old }
    ensures next { (f : Forest) → IsTree (S.heap store.old) f → MatchOption result
        (NoneAwake (S.heap store.old) (flat f) at (length (flat f)))
        (λ r. IsNextAwake (S.heap store.old) (flat f) at r.0 (S.mem_id r.1)) }
{
    if at == 0 {
        let root = store.root();
        if store.mem_mark(root) == AWAKE {
            return Some((0, root));
        }
    }
    store.awake_from(at)
}

/// The first membrane that is awake of those with a number of at least `at` and less than `until` in preorder.
#[inline(always)]
fn next_awake<S: LinkStore>(machine: &mut Machine<S>, at: u64, until: u64) -> Option<Awake<S::Mem>>
    requires { Valid (S.heap machine.old.store) }
    ensures same { S.heap machine.new.store ≡ S.heap machine.old.store }
    ensures next { (f : Forest) → IsTree (S.heap machine.old.store) f → MatchOption result
        (NoneAwake (S.heap machine.old.store) (flat f) at until)
        (λ a. IsNextAwake (S.heap machine.old.store) (flat f) at a.number (S.mem_id a.membrane)) }
    ensures within { IfSome result (λ a. a.number < until) }
{
    match awake_from(machine.store_mut(), at) {
        Some((number, membrane)) => {
            if number < until {
                Some(Awake { number, membrane })
            } else {
                None
            }
        }
        None => None,
    }
}

/// Asks the membranes that are awake, of those with a number of at least `from` and less than `until` in preorder, one after
/// the other. Those that are asked in vain fall asleep, if they may.
#[inline(always)]
fn first_of_some<S: LinkStore, L: Ledger>(
    machine: &mut Machine<S>,
    codes: &Codes,
    from: u64,
    until: u64,
    sleep: bool,
    steps: &mut Steps<L>,
) -> Option<Choice<S::Mem>>
    requires turn { CanTurn (S.heap machine.old.store) (length codes.now) }
    requires sleeps { SleepsRightly (S.heap machine.old.store) codes.now }
    requires order { AllInOrder codes.now }
    requires ordered { from ≤ until }
    ensures turn { CanTurn (S.heap machine.new.store) (length codes.now) }
    ensures sleeps { SleepsRightly (S.heap machine.new.store) codes.now }
    ensures first { (f : Forest) → IsTree (S.heap machine.old.store) f → MatchOption result
        (AreAskedInVain sleep (S.heap machine.old.store) (S.heap machine.new.store) codes.now (between from until (flat f)))
        (λ c. AreAskedUpTo sleep (S.heap machine.old.store) (S.heap machine.new.store) codes.now (between from until (flat f)) (S.mem_id c.membrane) c.place c.rule) }
    ensures found { IfSome result (λ c. HasFound S.atom_id S.mem_id (S.heap machine.new.store) codes.now (S.mem_id c.membrane) c.rule machine.new.set) }
    ensures steps { (f : Forest) → IsTree (S.heap machine.old.store) f → CountsAmong (S.heap machine.old.store) codes.now (awake_of (S.heap machine.old.store) (between from until (flat f))) steps.old steps.new }
{
    let mut at = from;
    while let Some(next) = next_awake(machine, at, until) {
        match ask(machine, codes, next.membrane, sleep, steps) {
            Some(choice) => return Some(choice),
            None => at = next.number + 1,
        }
    }
    None
}

/// Asks so those with a number of less than `until`, in a call of its own: a turn that begins with the root asks none of them.
fn first_of_earlier<S: LinkStore, L: Ledger>(
    machine: &mut Machine<S>,
    codes: &Codes,
    until: u64,
    sleep: bool,
    steps: &mut Steps<L>,
) -> Option<Choice<S::Mem>>
    requires turn { CanTurn (S.heap machine.old.store) (length codes.now) }
    requires sleeps { SleepsRightly (S.heap machine.old.store) codes.now }
    requires order { AllInOrder codes.now }
    ensures turn { CanTurn (S.heap machine.new.store) (length codes.now) }
    ensures sleeps { SleepsRightly (S.heap machine.new.store) codes.now }
    ensures first { (f : Forest) → IsTree (S.heap machine.old.store) f → MatchOption result
        (AreAskedInVain sleep (S.heap machine.old.store) (S.heap machine.new.store) codes.now (between 0 until (flat f)))
        (λ c. AreAskedUpTo sleep (S.heap machine.old.store) (S.heap machine.new.store) codes.now (between 0 until (flat f)) (S.mem_id c.membrane) c.place c.rule) }
    ensures found { IfSome result (λ c. HasFound S.atom_id S.mem_id (S.heap machine.new.store) codes.now (S.mem_id c.membrane) c.rule machine.new.set) }
    ensures steps { (f : Forest) → IsTree (S.heap machine.old.store) f → CountsAmong (S.heap machine.old.store) codes.now (awake_of (S.heap machine.old.store) (between 0 until (flat f))) steps.old steps.new }
{
    first_of_some(machine, codes, 0, until, sleep, steps)
}

/// How many membranes there are, the root among them.
pub fn membranes<S: LinkStore>(store: &S) -> u64
    requires valid { Valid (S.heap store.now) }
    ensures { (f : Forest) → IsTree (S.heap store.now) f → result ≡ length (flat f) }
{
    store.membranes()
}

/// What the strategy chooses, where the membrane with the number `from` in preorder is asked first and there are `many`
/// membranes. A membrane that sleeps isn't asked, and one that is asked in vain falls asleep, if it may. It takes no memory, and
/// else the store is left as it was. The registers then hold the first success of the code. The steps rise by the rules of the
/// awake membranes asked at most: those up to the rule that is chosen, or all where none is.
/// Where membranes may not fall asleep those asked in vain stay awake, so it goes on from the number of a membrane
/// and not from what is awake; `reducible` asks so, and changes nothing.
#[inline(always)]
pub fn search<S: LinkStore, L: Ledger>(
    machine: &mut Machine<S>,
    codes: &Codes,
    from: u64,
    many: u64,
    sleep: bool,
    steps: &mut Steps<L>,
) -> Option<Choice<S::Mem>>
    requires ready { CanAsk (S.heap machine.old.store) codes.now }
    requires order { AllInOrder codes.now }
    requires many { (f : Forest) → IsTree (S.heap machine.old.store) f → many ≡ length (flat f) }
    requires from { from < many }
    ensures ready { CanAsk (S.heap machine.new.store) codes.now }
    ensures first { let h = S.heap machine.old.store in let k = S.heap machine.new.store in (f : Forest) → IsTree h f → MatchOption result
        (AreAskedInVain sleep h k codes.now (flat f))
        (λ c. AreAskedUpTo sleep h k codes.now (asked from f) (S.mem_id c.membrane) c.place c.rule) }
    ensures found { IfSome result (λ c. HasFound S.atom_id S.mem_id (S.heap machine.new.store) codes.now (S.mem_id c.membrane) c.rule machine.new.set) }
    ensures steps { CountsAsked (S.heap machine.old.store) codes.now from steps.old steps.new }
{
    match first_of_some(machine, codes, from, many, sleep, steps) {
        Some(choice) => Some(choice),
        None => first_of_earlier(machine, codes, from, sleep, steps),
    }
}
