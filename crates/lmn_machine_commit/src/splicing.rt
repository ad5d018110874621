//! Ports that are joined by their partners as they stand.
ghost use Rattle.std.specs.Prelude.{◌≢◌, ◌≡◌, ℕ, Some};
ghost use Rattle.lmn_store_heap.specs.Heap.{link_of};
ghost use Rattle.lmn_store_heap.specs.Splice.{IsPort, relinked, unified};

use lmn_store_trait::LinkStore;

/// A new port takes the place of an old one at the partner of that, where there is one.
pub fn relink<S: LinkStore>(store: &mut S, new: (S::Atom, u8), old: (S::Atom, u8))
    requires new { IsPort (S.heap store.old) (S.atom_id new.0) new.1 }
    requires old { IsPort (S.heap store.old) (S.atom_id old.0) old.1 }
    requires apart { (x : ℕ × ℕ) → link_of (S.heap store.old) (S.atom_id old.0) old.1 ≡ Some x → ◌≢◌ {A = ℕ × ℕ} (S.atom_id new.0, new.1) x }
    ensures { S.heap store.new ≡ relinked (S.heap store.old) (S.atom_id new.0) new.1 (S.atom_id old.0) old.1 }
{
    match store.partner(old.0, old.1) {
        Some((c, k)) => store.join(new.0, new.1, c, k),
        None => {}
    }
}

/// The partners of two ports are joined, unless the two are partners of each other.
pub fn unify<S: LinkStore>(store: &mut S, p: (S::Atom, u8), q: (S::Atom, u8))
    requires p { IsPort (S.heap store.old) (S.atom_id p.0) p.1 }
    requires q { IsPort (S.heap store.old) (S.atom_id q.0) q.1 }
    requires differ { ◌≢◌ {A = ℕ × ℕ} (S.atom_id p.0, p.1) (S.atom_id q.0, q.1) }
    ensures { S.heap store.new ≡ unified (S.heap store.old) (S.atom_id p.0) p.1 (S.atom_id q.0) q.1 }
{
    if let Some((c, k)) = store.partner(p.0, p.1) {
        if let Some((d, l)) = store.partner(q.0, q.1) {
            if !(store.same_atom(c, q.0) && k == q.1) {
                store.join(c, k, d, l);
            }
        }
    }
}
