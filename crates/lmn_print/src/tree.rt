//! The items of a membrane, written in the place of its atoms.
ghost use Rattle.lmn_print.specs.Texts.{AreItemTexts};

use crate::items::{first_item, next_item};
use lmn_base::Names;
use lmn_io::{LineBuffer, Sink};
use lmn_print_folding::add_item;
use lmn_print_plain::{AtomWriter, add_between};
use lmn_store_trait::LinkStore;

/// The folded form: own marks tell the items, and the marks of printed ports the numbers of links.
pub(crate) struct FoldedItems;

impl<S: LinkStore, O: Sink> AtomWriter<S, O> for FoldedItems {
    ghost are_texts = { AreItemTexts };

    fn add_atoms(
        &self,
        buffer: &mut LineBuffer,
        out: &mut O,
        names: &Names,
        store: &S,
        mem: S::Mem,
        between: &[u8],
    ) {
        let mut any = false;
        let mut next = first_item(store, mem);
        while let Some(item) = next {
            add_between(buffer, out, any, between);
            add_item(buffer, out, names, store, item);
            any = true;
            next = next_item(store, mem, item);
        }
    }

    fn has_atoms(&self, store: &S, mem: S::Mem) -> bool {
        first_item(store, mem).is_some()
    }
}
