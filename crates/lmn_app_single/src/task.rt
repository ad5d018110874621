use lmn_app_words::RunSettings;
use lmn_order::Order;

/// What a command does with a text.
#[derive(Clone, Copy)]
pub enum Task {
    /// A run of it.
    Run(RunSettings),
    /// A listing of the code of its rules.
    List,
}

/// What `run --folded` gives with all other defaults.
pub(crate) const DEMO: RunSettings = RunSettings {
    trace: false,
    folded: true,
    budget: 1_000_000,
    size: 16_777_216,
    order: Order::First,
};
