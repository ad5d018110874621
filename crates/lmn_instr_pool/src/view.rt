//! The code of a rule, as it is lent.
ghost use Rattle.std.specs.Prelude.{◌≡◌};

use crate::body::Body;
use crate::instrs::Instrs;
use std::marker::Model;

/// The code of a rule. Contracts see it as such.
#[derive(Drop)]
pub struct CodeView<'c> {
    head: Instrs<'c>,
    body: Body<'c>,
}

impl<'c> Model for CodeView<'c> {
    ghost use Rattle.lmn_instr_code.specs.declared.instr.Code.{Code};

    ghost Value = { Code };

    ghost view = { λ c. record { head = c.head; body = c.body } };
}

impl<'c> CodeView<'c> {
    /// The code with this head and this body.
    pub(crate) fn new(head: Instrs<'c>, body: Body<'c>) -> CodeView<'c>
        ensures { result ≡ record { head = head.entry; body = body.entry } }
    {
        CodeView { head, body }
    }

    /// The instructions that find a match.
    pub fn head(&self) -> &Instrs<'c>
        ensures { result.now ≡ self.now.head }
    {
        &self.head
    }

    /// The instructions that rewrite it.
    pub fn body(&self) -> &Body<'c>
        ensures { result.now ≡ self.now.body }
    {
        &self.body
    }
}
