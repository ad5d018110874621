ghost use Rattle.std.specs.Prelude.{◌≡◌, ◌+◌, ◌<◌, ◌++◌, List, [], ◌∷◌, ℕ, false, codes, drop, length, option_to_list, slice_get, All, Some, IfOk, OnOk};
ghost use Rattle.std.specs.List.{AllZip};
ghost use Rattle.lmn_base.specs.declared.level.Occ.{Occ};
ghost use Rattle.lmn_base.specs.declared.rule.RuleTree.{RuleTree};
ghost use Rattle.lmn_base.specs.Levels.{links_of};
ghost use Rattle.lmn_congruence.specs.Rules.{Name, named};
ghost use Rattle.lmn_parser.specs.Syntax.{bracketed, list, plus_link, clause_of, clauses_of, conditions_of, item_of, items_of_nodes, clause_of_rule, term_of, terms_of, clauses_of_tree};
ghost use Rattle.lmn_flatten_plain.specs.Expanded.{atom_leaf, typed_leaf};
ghost use Rattle.lmn_flatten_plain.specs.Expansion as expansion;
ghost use Rattle.lmn_flatten_plain.specs.Keys.{IsLinkIn, IsKey};
ghost use Rattle.lmn_flatten_plain.specs.Links.{Link, Use, made};
ghost use Rattle.lmn_flatten_plain.specs.Meanings.{name_at, place_at};
ghost use Rattle.lmn_flatten_plain.specs.Parts.{NumberedParts, ◌⊕◌, one_context, one_membrane, one_rule_context};
ghost use Rattle.lmn_flatten_plain.specs.Plains.{IsCond, IsPlainOf};
ghost use Rattle.lmn_flatten_numbers.specs.Scopes.{NumbersLevel, NumbersRule};
ghost use Rattle.lmn_flatten.specs.Built.{AddsLeaf, IsPartOfLevel, IsUse};
ghost use Rattle.lmn_flatten.specs.Glossaries.{Reading, IsGlossary, IsKnown};
ghost use Rattle.lmn_flatten.specs.Growing.{Argument, GrowsPart, HasNoRules, MayGrow, ReadsRule, Within, atom_with};
ghost use Rattle.lmn_flatten.specs.Scopes.{IsScope, Meets, Under};

use crate::glossary::Glossary;
use crate::guard::conditions;
use crate::kept::copied;
use crate::number::{following, narrow};
use crate::part::Part;
use crate::scope::Scope;
use lmn_base::{
    CONNECTOR_NAME, CtxUse, Label, Leaf, Level, NoMemory, Occ, Plain, Pos, Rows, RuleTree,
};
use lmn_flatten_numbers::{number_level, number_rule};
use lmn_parser::{AtomNode, Clause, Item, RuleNode, Term, Tree};
use std::alloc::Global;
use std::mem::drop;

/// The plain of a tree. The glossary is let go before the links of the process get their numbers.
pub(crate) fn expanded(glossary: Glossary, tree: &Tree) -> Result<Plain, NoMemory>
    requires known { IsKnown glossary }
    ensures { IfOk result (λ plain. (r : Reading) → IsGlossary r glossary → IsPlainOf r.words r.places r.names (clauses_of_tree tree.now) plain) }
{
    let alloc = glossary.alloc;
    let mut part = Part::new(alloc);
    let mut scope = Scope::new(alloc);
    let mut rules = Rows::new(alloc);
    add_clauses(
        &glossary,
        &mut part,
        &mut scope,
        &mut rules,
        tree.clauses.as_slice(),
    )?;
    let count = scope.count;
    drop(scope);
    drop(glossary);
    let top = part.into_level();
    plain(alloc, top, rules, count)
}

/// The plain with this top and these rules. The links of the top get their numbers; before, each has a key below `keys`.
fn plain(alloc: Global, mut top: Level, rules: Rows<RuleTree>, keys: u32) -> Result<Plain, NoMemory>
    requires { All (λ key. key < keys) (links_of top) }
    ensures { IfOk result (λ plain. NumbersLevel top plain.top plain.links × (plain.rules ≡ rules)) }
{
    let links = number_level(alloc, &mut top, keys)?;
    Ok(Plain { top, links, rules })
}

#[cycle(walk)]
fn add_clauses(
    glossary: &Glossary,
    part: &mut Part,
    scope: &mut Scope,
    table: &mut Rows<RuleTree>,
    clauses: &[Clause],
) -> Result<(), NoMemory>
    requires known { IsKnown glossary.now }
    ensures { OnOk result ((r : Reading) (way : List ℕ) (keys : List Link) → MayGrow r (Under way) keys glossary.now scope.old
        → GrowsPart r (Under way) keys (expansion.expanded_clauses r.words r.places way (clauses_of clauses.now)) part.old table.old part.new table.new scope.new) }
{
    for clause in clauses {
        add_clause(glossary, part, scope, table, clause)?;
    }
    Ok(())
}

#[cycle(walk)]
fn add_clause(
    glossary: &Glossary,
    part: &mut Part,
    scope: &mut Scope,
    table: &mut Rows<RuleTree>,
    clause: &Clause,
) -> Result<(), NoMemory>
    requires known { IsKnown glossary.now }
    ensures { OnOk result ((r : Reading) (way : List ℕ) (keys : List Link) → MayGrow r (Under way) keys glossary.now scope.old
        → GrowsPart r (Under way) keys (expansion.expanded_clause r.words r.places way (clause_of clause.now)) part.old table.old part.new table.new scope.new) }
{
    match clause {
        Clause::Process(items) => add_items(glossary, part, scope, table, items.as_slice()),
        Clause::Rule(node) => add_rule(glossary, part, table, node),
    }
}

#[cycle(walk)]
fn add_items(
    glossary: &Glossary,
    part: &mut Part,
    scope: &mut Scope,
    table: &mut Rows<RuleTree>,
    items: &[Item],
) -> Result<(), NoMemory>
    requires known { IsKnown glossary.now }
    ensures { OnOk result ((r : Reading) (way : List ℕ) (keys : List Link) → MayGrow r (Under way) keys glossary.now scope.old
        → GrowsPart r (Under way) keys (expansion.expanded_items r.words r.places way (items_of_nodes items.now)) part.old table.old part.new table.new scope.new) }
{
    for item in items {
        add_item(glossary, part, scope, table, item)?;
    }
    Ok(())
}

#[cycle(walk)]
fn add_item(
    glossary: &Glossary,
    part: &mut Part,
    scope: &mut Scope,
    table: &mut Rows<RuleTree>,
    item: &Item,
) -> Result<(), NoMemory>
    requires known { IsKnown glossary.now }
    ensures { OnOk result ((r : Reading) (way : List ℕ) (keys : List Link) → MayGrow r (Under way) keys glossary.now scope.old
        → GrowsPart r (Under way) keys (expansion.expanded_item r.words r.places way (item_of item.now)) part.old table.old part.new table.new scope.new) }
{
    match item {
        Item::Atom(node) => add_atom(glossary, part, scope, table, node, None),
        Item::Membrane(clauses) => {
            let inside = Part::new(glossary.alloc);
            add_membrane(glossary, part, scope, table, inside, clauses.as_slice())
        }
        Item::Context(token) => add_context(glossary, part, *token, false),
        Item::Closed(token) => add_context(glossary, part, *token, true),
        Item::Bracketed(token, link) => add_bracketed(glossary, part, scope, *token, *link),
        Item::RuleContext(token) => add_rule_context(glossary, part, *token),
        Item::Plus(token) => add_plus(glossary, part, scope, *token),
        Item::Group(clause) => add_clause(glossary, part, scope, table, clause),
        Item::Equal(left, token, right) => {
            let pos = glossary.place(*token)?;
            let one = scope.argument(glossary, pos, left)?;
            let other = scope.argument(glossary, pos, right)?;
            add_connector(glossary, part, one, other, pos)?;
            add_term(glossary, part, scope, table, pos, one.link, left)?;
            add_term(glossary, part, scope, table, pos, other.link, right)
        }
    }
}

/// Adds an untyped context, closed or not.
fn add_context(
    glossary: &Glossary,
    part: &mut Part,
    token: usize,
    closed: bool,
) -> Result<(), NoMemory>
    ensures { OnOk result ((r : Reading) (way : List ℕ) (keys : List Link) (table : List RuleTree) (scope : Scope) → MayGrow r (Under way) keys glossary.now scope
        → GrowsPart r (Under way) keys (one_context (record { name = name_at r.words r.places token; closed = closed; pos = place_at r.words r.places token })) part.old table part.new table scope) }
{
    let context = glossary.context(token)?;
    part.contexts.push(CtxUse {
        name: context.name,
        closed,
        pos: context.pos,
    })
}

/// Adds a rule context.
fn add_rule_context(glossary: &Glossary, part: &mut Part, token: usize) -> Result<(), NoMemory>
    ensures { OnOk result ((r : Reading) (way : List ℕ) (keys : List Link) (table : List RuleTree) (scope : Scope) → MayGrow r (Under way) keys glossary.now scope
        → GrowsPart r (Under way) keys (one_rule_context (record { name = name_at r.words r.places token; closed = false; pos = place_at r.words r.places token })) part.old table part.new table scope) }
{
    let context = glossary.context(token)?;
    part.rule_contexts.push(context)
}

/// Adds a typed context whose link is written.
fn add_bracketed(
    glossary: &Glossary,
    part: &mut Part,
    scope: &mut Scope,
    token: usize,
    link: usize,
) -> Result<(), NoMemory>
    ensures { OnOk result ((r : Reading) (way : List ℕ) (keys : List Link) (table : List RuleTree) → MayGrow r (Under way) keys glossary.now scope.old
        → GrowsPart r (Under way) keys (expansion.expanded_item r.words r.places way (bracketed token link)) part.old table part.new table scope.new) }
{
    let link = scope.written(glossary, link)?;
    add_typed(glossary, part, token, link)
}

/// Adds the atom `+` whose link is written.
fn add_plus(
    glossary: &Glossary,
    part: &mut Part,
    scope: &mut Scope,
    token: usize,
) -> Result<(), NoMemory>
    ensures { OnOk result ((r : Reading) (way : List ℕ) (keys : List Link) (table : List RuleTree) → MayGrow r (Under way) keys glossary.now scope.old
        → GrowsPart r (Under way) keys (expansion.expanded_item r.words r.places way (plus_link token)) part.old table part.new table scope.new) }
{
    let pos = glossary.place(token)?;
    let link = scope.written(glossary, following(token)?)?;
    add_unary(glossary, part, glossary.plus, link, pos)
}

/// Adds an atom with its arguments, and with its own link behind them where it is an argument itself.
#[cycle(walk)]
fn add_atom(
    glossary: &Glossary,
    part: &mut Part,
    scope: &mut Scope,
    table: &mut Rows<RuleTree>,
    node: &AtomNode,
    own: Option<Occ>,
) -> Result<(), NoMemory>
    requires known { IsKnown glossary.now }
    ensures { OnOk result ((r : Reading) (way : List ℕ) (keys : List Link) (own_uses : List Use) → MayGrow r (Under way) keys glossary.now scope.old → AllZip (IsUse r.names (IsKey keys)) own_uses (option_to_list own)
        → GrowsPart r (Under way) keys (atom_with r.words r.places way node.now.token (terms_of node.now.args) own_uses) part.old table.old part.new table.new scope.new) }
{
    let label = glossary.label(node.token)?;
    let pos = glossary.place(node.token)?;
    let links = arguments(glossary, scope, pos, node.args.as_slice())?;
    let all = with_own(glossary.alloc, links.as_slice(), own)?;
    part.add_atom(label, all, pos)?;
    add_terms(
        glossary,
        part,
        scope,
        table,
        pos,
        links.as_slice(),
        node.args.as_slice(),
    )
}

/// The occurrences that stand for arguments.
fn arguments(
    glossary: &Glossary,
    scope: &mut Scope,
    pos: Pos,
    terms: &[Term],
) -> Result<Rows<Occ>, NoMemory>
    ensures length { IfOk result (λ links. length links ≡ length terms.now) }
    ensures links { IfOk result (λ links. (r : Reading) (way : List ℕ) (keys : List Link) → MayGrow r (Argument way) keys glossary.now scope.old
        → (m : Meets r (Argument way) keys scope.new) × AllZip (IsUse r.names (IsKey (keys ++ m.more))) (expansion.expanded_arguments r.words r.places pos way (terms_of terms.now)) links) }
{
    let mut links = Rows::new(glossary.alloc);
    for term in terms {
        let link = scope.argument(glossary, pos, term)?;
        links.push(link)?;
    }
    Ok(links)
}

/// A copy of links, with one more behind them, if there is one.
fn with_own(alloc: Global, links: &[Occ], own: Option<Occ>) -> Result<Rows<Occ>, NoMemory>
    ensures { IfOk result (λ all. all ≡ links.now ++ option_to_list own) }
{
    let mut all = Rows::new(alloc);
    for link in links {
        all.push(*link)?;
    }
    match own {
        Some(link) => {
            all.push(link)?;
            Ok(all)
        }
        None => Ok(all),
    }
}

/// Adds what arguments make. Each of them has its own link.
#[cycle(walk)]
fn add_terms(
    glossary: &Glossary,
    part: &mut Part,
    scope: &mut Scope,
    table: &mut Rows<RuleTree>,
    pos: Pos,
    links: &[Occ],
    terms: &[Term],
) -> Result<(), NoMemory>
    requires known { IsKnown glossary.now }
    ensures { OnOk result ((r : Reading) (way : List ℕ) (keys : List Link) → MayGrow r (Within way) keys glossary.now scope.old → AllZip (IsUse r.names (IsKey keys)) (expansion.expanded_arguments r.words r.places pos way (terms_of terms.now)) links.now
        → GrowsPart r (Within way) keys (expansion.expanded_terms r.words r.places pos way (terms_of terms.now)) part.old table.old part.new table.new scope.new) }
{
    for i in 0..terms.len() {
        let own = own_link(links, i)?;
        add_term(glossary, part, scope, table, pos, own, &terms[i])?;
    }
    Ok(())
}

/// The link of an argument, where there are so many.
fn own_link(links: &[Occ], i: usize) -> Result<u32, NoMemory>
    ensures { IfOk result (λ own. (occ : Occ) × (slice_get links.now i ≡ Some occ) × (own ≡ occ.link)) }
{
    if i < links.len() {
        Ok(links[i].link)
    } else {
        Err(NoMemory)
    }
}

/// Adds what a term makes, with its own link.
#[cycle(walk)]
fn add_term(
    glossary: &Glossary,
    part: &mut Part,
    scope: &mut Scope,
    table: &mut Rows<RuleTree>,
    pos: Pos,
    own: u32,
    term: &Term,
) -> Result<(), NoMemory>
    requires known { IsKnown glossary.now }
    ensures { OnOk result ((r : Reading) (way : List ℕ) (keys : List Link) (x : Link) → MayGrow r (Under way) keys glossary.now scope.old → IsKey keys x own
        → GrowsPart r (Under way) keys (expansion.expanded_term r.words r.places pos way x (term_of term.now)) part.old table.old part.new table.new scope.new) }
{
    match term {
        Term::Link(_) => Ok(()),
        Term::Atom(node) => add_atom(
            glossary,
            part,
            scope,
            table,
            node,
            Some(Occ { link: own, pos }),
        ),
        Term::List(elements, behind) => match behind {
            Some(behind) => {
                let end = scope.argument(glossary, pos, behind)?;
                add_cells(
                    glossary,
                    part,
                    scope,
                    table,
                    pos,
                    end,
                    own,
                    elements.as_slice(),
                )?;
                add_term(glossary, part, scope, table, pos, end.link, behind)
            }
            None => add_list(glossary, part, scope, table, pos, own, elements.as_slice()),
        },
        Term::Context(token) => add_typed(glossary, part, *token, Occ { link: own, pos }),
        Term::Membrane(clauses) => {
            let mut inside = Part::new(glossary.alloc);
            add_unary(
                glossary,
                &mut inside,
                glossary.plus,
                Occ { link: own, pos },
                pos,
            )?;
            add_membrane(glossary, part, scope, table, inside, clauses.as_slice())
        }
    }
}

/// Adds a list that ends with `[]`.
#[cycle(walk)]
fn add_list(
    glossary: &Glossary,
    part: &mut Part,
    scope: &mut Scope,
    table: &mut Rows<RuleTree>,
    pos: Pos,
    own: u32,
    elements: &[Term],
) -> Result<(), NoMemory>
    requires known { IsKnown glossary.now }
    ensures { OnOk result ((r : Reading) (way : List ℕ) (keys : List Link) (x : Link) → MayGrow r (Under way) keys glossary.now scope.old → IsKey keys x own
        → GrowsPart r (Under way) keys (expansion.expanded_term r.words r.places pos way x (list (terms_of elements.now))) part.old table.old part.new table.new scope.new) }
{
    if elements.len() == 0 {
        return add_unary(glossary, part, glossary.empty, Occ { link: own, pos }, pos);
    }
    let end = scope.unwritten(pos)?;
    add_cells(glossary, part, scope, table, pos, end, own, elements)?;
    add_unary(glossary, part, glossary.empty, end, pos)
}

/// Adds the cells of a list, the first with its own link, and the last with the end behind it.
#[cycle(walk)]
fn add_cells(
    glossary: &Glossary,
    part: &mut Part,
    scope: &mut Scope,
    table: &mut Rows<RuleTree>,
    pos: Pos,
    end: Occ,
    own: u32,
    elements: &[Term],
) -> Result<(), NoMemory>
    requires known { IsKnown glossary.now }
    ensures { OnOk result ((r : Reading) (way : List ℕ) (keys : List Link) (x : Link) (last : Use) → MayGrow r (Under way) keys glossary.now scope.old → IsKey keys x own → IsUse r.names (IsKey keys) last end
        → GrowsPart r (Under way) keys (expansion.cells r.words r.places pos way last x (terms_of elements.now)) part.old table.old part.new table.new scope.new) }
{
    let mut own = own;
    for i in 0..elements.len() {
        let element = scope.argument(glossary, pos, &elements[i])?;
        let rest = rest(scope, pos, end, elements, i)?;
        add_cell(glossary, part, element, rest, Occ { link: own, pos }, pos)?;
        add_term(
            glossary,
            part,
            scope,
            table,
            pos,
            element.link,
            &elements[i],
        )?;
        own = rest.link;
    }
    Ok(())
}

/// The rest of the cell of an element: a new link where another element follows, and else the end of the list.
fn rest(scope: &mut Scope, pos: Pos, end: Occ, elements: &[Term], i: usize) -> Result<Occ, NoMemory>
    requires { i < length elements.now }
    ensures { IfOk result (λ occ. (r : Reading) (keys : List Link) (way : List ℕ) (last : Use) → IsScope r keys scope.old
        → (IsLinkIn (made way) keys → ⊥) → IsUse r.names (IsKey keys) last end
        → (m : Meets r (λ v. v ≡ way) keys scope.new)
        × IsUse r.names (IsKey (keys ++ m.more)) (expansion.rest r.words r.places pos way last (terms_of (drop (i + 1) elements.now))) occ) }
{
    if i + 1 < elements.len() {
        scope.unwritten(pos)
    } else {
        Ok(end)
    }
}

/// Adds a cell of a list.
fn add_cell(
    glossary: &Glossary,
    part: &mut Part,
    element: Occ,
    rest: Occ,
    own: Occ,
    pos: Pos,
) -> Result<(), NoMemory>
    ensures { OnOk result ((r : Reading) (keys : List Link) (a b c : Use) → IsGlossary r glossary.now → IsUse r.names (IsKey keys) a element → IsUse r.names (IsKey keys) b rest → IsUse r.names (IsKey keys) c own
        → AddsLeaf r.names (IsKey keys) (atom_leaf (named (codes ".")) (a ∷ b ∷ c ∷ []) pos) part.old part.new) }
{
    let mut links = room_of_a_cell(glossary.alloc)?;
    links.push(element)?;
    links.push(rest)?;
    links.push(own)?;
    part.add_atom(Label::Name(glossary.cell), links, pos)
}

/// No occurrences, with room for the three of a cell.
fn room_of_a_cell(alloc: Global) -> Result<Rows<Occ>, NoMemory>
    ensures { IfOk result (λ room. room ≡ []) }
{
    let room = Vec::with_capacity(alloc, 3)?;
    Ok(Rows::from_vec(room))
}

/// Adds an atom with one link.
fn add_unary(
    glossary: &Glossary,
    part: &mut Part,
    name: u32,
    link: Occ,
    pos: Pos,
) -> Result<(), NoMemory>
    ensures { OnOk result ((r : Reading) (keys : List Link) (n : Name) (a : Use) → IsGlossary r glossary.now → slice_get r.names name ≡ Some n → IsUse r.names (IsKey keys) a link
        → AddsLeaf r.names (IsKey keys) (atom_leaf (named n) (a ∷ []) pos) part.old part.new) }
{
    let mut links = Rows::new(glossary.alloc);
    links.push(link)?;
    part.add_atom(Label::Name(name), links, pos)
}

/// Adds a typed context.
fn add_typed(glossary: &Glossary, part: &mut Part, token: usize, link: Occ) -> Result<(), NoMemory>
    ensures { OnOk result ((r : Reading) (keys : List Link) (a : Use) → IsGlossary r glossary.now → IsUse r.names (IsKey keys) a link
        → AddsLeaf r.names (IsKey keys) (typed_leaf (name_at r.words r.places token) a (place_at r.words r.places token)) part.old part.new) }
{
    let name = glossary.name(token)?;
    let pos = glossary.place(token)?;
    part.leaves.push(Leaf::Typed { name, link, pos })
}

/// Adds a membrane that holds a part and what clauses make behind it.
#[cycle(walk)]
fn add_membrane(
    glossary: &Glossary,
    part: &mut Part,
    scope: &mut Scope,
    table: &mut Rows<RuleTree>,
    inside: Part,
    clauses: &[Clause],
) -> Result<(), NoMemory>
    requires known { IsKnown glossary.now }
    ensures { OnOk result ((r : Reading) (way : List ℕ) (keys : List Link) (f : NumberedParts) → MayGrow r (Under way) keys glossary.now scope.old
        → IsPartOfLevel r.names (IsKey keys) (f (length table.old)) inside → HasNoRules f
        → GrowsPart r (Under way) keys (one_membrane (f ⊕ expansion.expanded_clauses r.words r.places way (clauses_of clauses.now))) part.old table.old part.new table.new scope.new) }
{
    let mut inside = inside;
    add_clauses(glossary, &mut inside, scope, table, clauses)?;
    part.membranes.push(inside.into_level())
}

/// Adds the atom `=` with two links.
fn add_connector(
    glossary: &Glossary,
    part: &mut Part,
    left: Occ,
    right: Occ,
    pos: Pos,
) -> Result<(), NoMemory>
    ensures { OnOk result ((r : Reading) (keys : List Link) (a b : Use) → IsGlossary r glossary.now → IsUse r.names (IsKey keys) a left → IsUse r.names (IsKey keys) b right
        → AddsLeaf r.names (IsKey keys) (atom_leaf (named (codes "=")) (a ∷ b ∷ []) pos) part.old part.new) }
{
    let mut links = Rows::new(glossary.alloc);
    links.push(left)?;
    links.push(right)?;
    part.add_atom(Label::Name(CONNECTOR_NAME), links, pos)
}

/// Adds a rule. Its number comes before those of the rules in it.
#[cycle(walk)]
fn add_rule(
    glossary: &Glossary,
    part: &mut Part,
    table: &mut Rows<RuleTree>,
    node: &RuleNode,
) -> Result<(), NoMemory>
    requires known { IsKnown glossary.now }
    ensures { OnOk result ((r : Reading) (way : List ℕ) (keys : List Link) (scope : Scope) → MayGrow r (Under way) keys glossary.now scope
        → GrowsPart r (Under way) keys (expansion.expanded_clause r.words r.places way (clause_of_rule node.now)) part.old table.old part.new table.new scope) }
{
    let place = table.len();
    let number = narrow(place)?;
    let alloc = glossary.alloc;
    // A row with nothing keeps its place, until the rules in it are read.
    table.push(RuleTree {
        head: Part::new(alloc).into_level(),
        guard: Rows::new(alloc),
        body: Part::new(alloc).into_level(),
        links: Rows::new(alloc),
        pos: node.pos,
    })?;
    let rule = rule(glossary, table, node)?;
    table.set(place, rule);
    part.rules.push(number)
}

/// A rule. The rules in it go to the end of the table.
#[cycle(walk)]
fn rule(
    glossary: &Glossary,
    table: &mut Rows<RuleTree>,
    node: &RuleNode,
) -> Result<RuleTree, NoMemory>
    requires known { IsKnown glossary.now }
    ensures { IfOk result (λ rule. (r : Reading) (way : List ℕ) → IsGlossary r glossary.now
        → ReadsRule r way (items_of_nodes node.now.kept) (items_of_nodes node.now.taken) (conditions_of node.now.guard) (items_of_nodes node.now.body) node.now.pos
        table.old rule table.new) }
{
    let alloc = glossary.alloc;
    let mut scope = Scope::new(alloc);
    let mut head = Part::new(alloc);
    add_items(glossary, &mut head, &mut scope, table, node.kept.as_slice())?;
    let mut body = copied(alloc, &mut scope, &head)?;
    add_items(
        glossary,
        &mut head,
        &mut scope,
        table,
        node.taken.as_slice(),
    )?;
    add_items(glossary, &mut body, &mut scope, table, node.body.as_slice())?;
    let head = head.into_level();
    let body = body.into_level();
    numbered(glossary, head, body, scope.count, node)
}

/// The rule with this head and this body, whose links get their numbers. Before, each has a key below `keys`.
fn numbered(
    glossary: &Glossary,
    mut head: Level,
    mut body: Level,
    keys: u32,
    node: &RuleNode,
) -> Result<RuleTree, NoMemory>
    requires { All (λ key. key < keys) (links_of head ++ links_of body) }
    ensures { IfOk result (λ rule. NumbersRule head body rule.head rule.body rule.links × (rule.pos ≡ node.now.pos)
        × ((r : Reading) → IsGlossary r glossary.now → AllZip (IsCond r.words r.places r.names) (conditions_of node.now.guard) rule.guard)) }
{
    let guard = conditions(glossary, node.guard.as_slice())?;
    let links = number_rule(glossary.alloc, &mut head, &mut body, keys)?;
    Ok(RuleTree {
        head,
        guard,
        body,
        links,
        pos: node.pos,
    })
}
