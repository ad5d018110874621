ghost use Rattle.std.specs.Prelude.{◌≡◌, ◌+◌, ◌≤◌, ◌<◌, ◌^◌, List, length, slice_get, Some, IfOk, OnOk};
ghost use Rattle.std.specs.List.{AllByRecursion};
ghost use Rattle.lmn_base.specs.Limits.{longest_name};
ghost use Rattle.lmn_base.specs.Names.{IsNames};
ghost use Rattle.lmn_congruence.specs.Rules.{Name, named};
ghost use Rattle.lmn_lexer.specs.Cutting.{Cuts};
ghost use Rattle.lmn_lexer.specs.Faults.{NothingWrong};
ghost use Rattle.lmn_lexer.specs.Laying.{Word, word_of, words_of};
ghost use Rattle.lmn_lexer.specs.Values.{bytes_of, integer_of};
ghost use Rattle.lmn_flatten_plain.specs.Meanings.{word_at, place_at, name_at, label_at, label_spelled};
ghost use Rattle.lmn_flatten_plain.specs.Plains.{number_of, numbered_label, context_use};
ghost use Rattle.lmn_flatten.specs.Glossaries.{Reading, IsGlossary, IsMeaning, IsRightToken, GrowsBy, HasEntries, reading_of};
ghost use Rattle.lmn_flatten.specs.NameLists.{names_read, with_name, with_word, with_words};

use lmn_base::{CtxUse, Label, Names, NoMemory, Pos, Rows};
use lmn_lexer::{Kind, PackedToken, Token, Tokens, integer, unquoted};
use std::alloc::Global;

/// What a token means.
#[derive(Clone, Copy)]
pub(crate) enum Meaning {
    /// A name or an integer; the name of a context, or of a rule context.
    Label(Label),
    /// A link, by the number of its name among the names of links.
    Link(u32),
    /// Anything else.
    Sign,
}

/// A token's meaning, and its place.
#[derive(Clone, Copy)]
pub(crate) struct Entry {
    /// What it means.
    pub(crate) meaning: Meaning,
    /// Its place in the text.
    pub(crate) pos: Pos,
}

/// What the tokens of a text mean, and the numbers of the names that abbreviations bring in.
/// It is read first, in one pass, so the walk over the tree wants neither text nor names; a name that no plain has, as
/// that of a rule, is held too.
pub(crate) struct Glossary {
    /// What memory is taken from.
    pub(crate) alloc: Global,
    /// One entry for each token.
    pub(crate) entries: Rows<Entry>,
    /// The number of the name `.`.
    pub(crate) cell: u32,
    /// The number of the name `[]`.
    pub(crate) empty: u32,
    /// The number of the name `+`.
    pub(crate) plus: u32,
}

// By hand, so that each exit of a function that holds a glossary has one call for it.
impl Drop for Glossary {
    fn drop(self) {
        let Glossary {
            alloc: _,
            entries: _,
            cell: _,
            empty: _,
            plus: _,
        } = self;
    }
}

impl Glossary {
    /// The glossary of a text. The names of its tokens go to the end of the list, but for those that it holds.
    pub(crate) fn read(
        alloc: Global,
        text: &[u8],
        tokens: &Tokens,
        names: &mut Names,
    ) -> Result<Glossary, NoMemory>
        requires right { NothingWrong text.now }
        requires cut { Cuts text.now tokens.now }
        requires room { length names.old + (length tokens.now + 3) ≤ 2 ^ 32 }
        ensures grows { GrowsBy (length tokens.now + 3) names.old names.new }
        ensures names { OnOk result (names.new ≡ names_read names.old (words_of text.now tokens.now)) }
        ensures glossary { IfOk result (λ glossary. (links : List Name) × IsGlossary (reading_of text.now tokens.now names.new links) glossary) }
    {
        known(names);
        let cell = put(names, b".")?;
        let empty = put(names, b"[]")?;
        let plus = put(names, b"+")?;
        let entries = entries(alloc, text, tokens.as_slice(), names)?;
        Ok(Glossary {
            alloc,
            entries,
            cell,
            empty,
            plus,
        })
    }

    /// The entry of a token.
    fn entry(&self, token: usize) -> Result<Entry, NoMemory>
        ensures { IfOk result (λ entry. slice_get self.now.entries token ≡ Some entry) }
    {
        if token < self.entries.len() {
            Ok(*self.entries.at(token))
        } else {
            Err(NoMemory)
        }
    }

    /// The place of a token.
    pub(crate) fn place(&self, token: usize) -> Result<Pos, NoMemory>
        ensures { IfOk result (λ pos. (r : Reading) → IsGlossary r self.now → pos ≡ place_at r.words r.places token) }
    {
        let entry = self.entry(token)?;
        Ok(entry.pos)
    }

    /// The label that a token spells.
    pub(crate) fn label(&self, token: usize) -> Result<Label, NoMemory>
        ensures { IfOk result (λ label. (r : Reading) → IsGlossary r self.now → label ≡ numbered_label r.names (λ a. 0) (label_at r.words r.places token)) }
    {
        let entry = self.entry(token)?;
        match entry.meaning {
            Meaning::Label(label) => Ok(label),
            Meaning::Link(_) => Err(NoMemory),
            Meaning::Sign => Err(NoMemory),
        }
    }

    /// The number of the name that a token spells.
    pub(crate) fn name(&self, token: usize) -> Result<u32, NoMemory>
        ensures { IfOk result (λ name. (r : Reading) → IsGlossary r self.now → name ≡ number_of r.names (name_at r.words r.places token)) }
    {
        let label = self.label(token)?;
        match label {
            Label::Name(name) => Ok(name),
            Label::Int(_) => Err(NoMemory),
        }
    }

    /// The integer that a token spells.
    pub(crate) fn integer(&self, token: usize) -> Result<i64, NoMemory>
        ensures { IfOk result (λ value. (r : Reading) → IsGlossary r self.now → let word = word_at r.words r.places token in value ≡ integer_of word.bytes) }
    {
        let label = self.label(token)?;
        match label {
            Label::Name(_) => Err(NoMemory),
            Label::Int(value) => Ok(value),
        }
    }

    /// The number of the link's name that a token spells.
    pub(crate) fn link(&self, token: usize) -> Result<u32, NoMemory>
        ensures { IfOk result (λ name. (r : Reading) → IsGlossary r self.now → let word = word_at r.words r.places token in slice_get r.links name ≡ Some word.bytes) }
    {
        let entry = self.entry(token)?;
        match entry.meaning {
            Meaning::Label(_) => Err(NoMemory),
            Meaning::Link(name) => Ok(name),
            Meaning::Sign => Err(NoMemory),
        }
    }

    /// The context that a token spells.
    pub(crate) fn context(&self, token: usize) -> Result<CtxUse, NoMemory>
        ensures { IfOk result (λ context. (r : Reading) → IsGlossary r self.now → context ≡ context_use r.words r.places r.names token) }
    {
        let name = self.name(token)?;
        let pos = self.place(token)?;
        Ok(CtxUse {
            name,
            closed: false,
            pos,
        })
    }
}

/// The number of a name in a list that has room.
fn put(names: &mut Names, name: &[u8]) -> Result<u32, NoMemory>
    requires short { length name.now ≤ longest_name }
    requires room { length names.old < 2 ^ 32 }
    ensures grows { GrowsBy 1 names.old names.new }
    ensures names { OnOk result (names.new ≡ with_name names.old name.now) }
    ensures number { IfOk result (λ number. slice_get names.new number ≡ Some name.now) }
{
    names.put(name)
}

/// The entries of tokens.
fn entries(
    alloc: Global,
    text: &[u8],
    tokens: &[PackedToken],
    names: &mut Names,
) -> Result<Rows<Entry>, NoMemory>
    requires right { AllByRecursion (IsRightToken text.now) tokens.now }
    requires room { length names.old + length tokens.now ≤ 2 ^ 32 }
    requires links { 4 + length tokens.now ≤ 2 ^ 32 }
    ensures grows { GrowsBy (length tokens.now) names.old names.new }
    ensures names { OnOk result (names.new ≡ with_words names.old (words_of text.now tokens.now)) }
    ensures entries { IfOk result (λ entries. HasEntries text.now tokens.now names.new entries) }
{
    let mut links = names.another();
    let mut entries = Rows::new(alloc);
    for token in tokens {
        let token = token.token();
        let meaning = spelled(alloc, text, token, names, &mut links)?;
        entries.push(Entry {
            meaning,
            pos: token.pos,
        })?;
    }
    known(names);
    known(&links);
    Ok(entries)
}

/// A list of names begins with the fixed names, and has each name once.
fn known(names: &Names)
    ensures { IsNames names.now }
{
    names.len();
}

/// What a token means.
fn spelled(
    alloc: Global,
    text: &[u8],
    token: Token,
    names: &mut Names,
    links: &mut Names,
) -> Result<Meaning, NoMemory>
    requires right { IsRightToken text.now token }
    requires room { length names.old < 2 ^ 32 }
    requires links { length links.old < 2 ^ 32 }
    ensures grows { GrowsBy 1 names.old names.new }
    ensures links { GrowsBy 1 links.old links.new }
    ensures names { OnOk result (names.new ≡ with_word names.old (word_of text.now token)) }
    ensures meaning { IfOk result (λ made. IsMeaning names.new links.new (word_of text.now token) made) }
{
    let bytes = bytes_of(text, token);
    match token.kind {
        Kind::Int => Ok(Meaning::Label(Label::Int(integer(bytes)))),
        Kind::Link => {
            let link = put(links, bytes)?;
            Ok(Meaning::Link(link))
        }
        Kind::Quoted => {
            let name = unquoted(alloc, bytes)?;
            named_by(names, name.as_slice())
        }
        Kind::Context => named_by(names, &bytes[1..]),
        Kind::RuleCtx => named_by(names, &bytes[1..]),
        Kind::Name => named_by(names, bytes),
        Kind::Mod => named_by(names, bytes),
        _ => Ok(Meaning::Sign),
    }
}

/// The meaning of a token with a name.
fn named_by(names: &mut Names, name: &[u8]) -> Result<Meaning, NoMemory>
    requires short { length name.now ≤ longest_name }
    requires room { length names.old < 2 ^ 32 }
    ensures grows { GrowsBy 1 names.old names.new }
    ensures names { OnOk result (names.new ≡ with_name names.old name.now) }
    ensures meaning { IfOk result (λ made. (links : List Name) (word : Word) → label_spelled word.kind word.bytes ≡ named name.now
        → IsMeaning names.new links word made) }
{
    let number = put(names, name)?;
    Ok(Meaning::Label(Label::Name(number)))
}

/// The bytes of a token of a text.
fn bytes_of(text: &[u8], token: Token) -> &[u8]
    requires forth { token.start ≤ token.end }
    requires within { token.end ≤ length text.now }
    ensures { result.now ≡ bytes_of text.now token }
{
    &text[token.start..token.end]
}
