//! The codes of rules.
ghost use Rattle.std.specs.Prelude.{◌≡◌, [], ◌∷◌, ◌++◌, ◌<◌, length, slice_get, Some, IfOk, OnOk, OnErr};

use crate::body::Body;
use crate::extent::{Extent, end_of_actions};
use crate::instrs::Instrs;
use crate::pool::Pool;
use crate::view::CodeView;
use lmn_base::{NoMemory, Rows};
use lmn_instr_code::{Code, Instr};
use std::alloc::Global;
use std::marker::Model;

/// A code with the numbers of the instructions of its head in the pool, the place from which on these are COMMIT, and with what is told of
/// its body.
#[derive(Drop)]
struct Numbered {
    head: Rows<u32>,
    acts: usize,
    body: Rows<Instr>,
    extent: Extent,
}

/// Codes by their numbers, from 0 on. Instructions of heads that only tell two registers apart stand in memory once, however many
/// codes have them.
/// Contracts see the list of the codes.
/// Whether an instruction stands in the pool is guessed by a table of the two registers, and then looked up: so
/// nothing has to hold of the table.
pub struct Codes {
    pool: Pool,
    codes: Rows<Numbered>,
}

// By hand, so that a crate above calls this and proves nothing of how codes are freed.
impl Drop for Codes {
    fn drop(self) {
        let Codes { pool: _, codes: _ } = self;
    }
}

impl Model for Codes {
    ghost use Rattle.std.specs.Prelude.{List};
    ghost use Rattle.lmn_instr_code.specs.declared.instr.Code.{Code};

    ghost Value = { List Code };

    ghost use Rattle.lmn_instr_pool.specs.Stored.{AreStored, stored_codes};

    ghost view = { λ c. stored_codes c.pool c.codes };

    ghost invariant = { λ c. AreStored c.pool c.codes };
}

impl Codes {
    /// No code.
    pub fn new(alloc: Global) -> Codes
        ensures { result ≡ [] }
    {
        Codes {
            pool: Pool::new(alloc),
            codes: Rows::new(alloc),
        }
    }

    /// All codes of a list, in order.
    ///
    /// # Errors
    ///
    /// `NoMemory` at want of memory.
    pub fn from_rows(alloc: Global, rows: Rows<Code>) -> Result<Codes, NoMemory>
        ensures { IfOk result (λ codes. codes ≡ rows) }
    {
        let mut codes = Codes::new(alloc);
        for code in rows.into_vec() {
            codes.push(alloc, code)?;
        }
        Ok(codes)
    }

    /// Adds a code behind all others. At want of memory it is dropped, and the codes are as before.
    ///
    /// # Errors
    ///
    /// `NoMemory` at want of memory.
    pub fn push(&mut self, alloc: Global, code: Code) -> Result<(), NoMemory>
        ensures ok { OnOk result (self.new ≡ self.old ++ code ∷ []) }
        ensures err { OnErr result (self.new ≡ self.old) }
    {
        let Code { head, body } = code;
        let extent = Extent::of(body.as_slice());
        let acts = end_of_actions(head.as_slice());
        let head = self.pool.put_all(alloc, head)?;
        self.codes.push(Numbered {
            head,
            acts,
            body,
            extent,
        })?;
        Ok(())
    }

    /// The number of codes.
    pub fn len(&self) -> usize
        ensures { result ≡ length self.now }
    {
        self.codes.len()
    }

    /// The code with a number below `len`.
    pub fn code(&self, rule: u32) -> CodeView<'_>
        requires { rule < length self.now }
        ensures { slice_get self.now rule ≡ Some result }
    {
        let code = self.codes.at(rule as usize);
        CodeView::new(
            Instrs::new(self.pool.instrs(), code.head.as_slice(), code.acts),
            Body::new(code.body.as_slice(), &code.extent),
        )
    }
}
