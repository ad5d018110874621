use lmn_base::Rows;

/// What a typed context of a head stands for.
#[derive(Drop)]
pub struct Part {
    /// The number of the context's name.
    pub name: u32,
    /// The number of the link that holds it.
    pub link: u64,
    /// Its atoms, depth first from this link.
    pub atoms: Rows<usize>,
}

/// What a head takes, and what the names of its rule stand for.
#[derive(Drop)]
pub struct Match {
    /// The membrane in which the rule fires.
    pub home: usize,
    /// A number above those of all links of the solid.
    pub links: u64,
    /// The atoms that the head takes: the images of its atoms, and the atoms of its parts.
    pub atoms: Rows<usize>,
    /// The images of its membranes.
    pub membranes: Rows<usize>,
    /// Its typed contexts.
    pub parts: Rows<Part>,
    /// The integers to which the guard binds names.
    pub integers: Rows<(u32, i64)>,
    /// The images of the membranes in which untyped contexts stand, by the names of these.
    pub contexts: Rows<(u32, usize)>,
    /// The same of rule contexts.
    pub rule_contexts: Rows<(u32, usize)>,
}
