ghost use Rattle.std.specs.Prelude.{◌≡◌};
ghost use Rattle.lmn_app_words.specs.Hearing.{begins_with, flag_named, no_settings, number_from, number_written, option_named, order_named, setting_of, with_setting};
ghost use Rattle.lmn_app_words.specs.Forms.{ordered_by};

use lmn_order::Order;

/// The most digits of a number.
const DIGITS: usize = 19;

/// The most that `--budget` and `--seed` take.
const MOST: u64 = 9_223_372_036_854_775_807;

/// The most that `--size` takes.
const MOST_ITEMS: u64 = 4_294_967_295;

/// The most that `demo` takes.
const MOST_ATOMS: u64 = 100_000;

/// What one option sets.
#[derive(Clone, Copy)]
pub(crate) enum Setting {
    Flag(Flag),
    Budget(u64),
    Size(u64),
    Order(OrderName),
    Seed(u64),
}

/// An option without a value.
#[derive(Clone, Copy)]
pub(crate) enum Flag {
    Trace,
    Folded,
}

impl Flag {
    /// The option of this name.
    pub(crate) fn named(word: &str) -> Option<Flag>
        ensures { result ≡ flag_named word.now }
    {
        match word {
            "--trace" => Some(Flag::Trace),
            "--folded" => Some(Flag::Folded),
            _ => None,
        }
    }
}

/// The value of `--order`.
#[derive(Clone, Copy)]
pub(crate) enum OrderName {
    First,
    Turn,
    Seed,
}

impl OrderName {
    /// The order of this name.
    pub(crate) fn named(word: &str) -> Option<OrderName>
        ensures { result ≡ order_named word.now }
    {
        match word {
            "first" => Some(OrderName::First),
            "turn" => Some(OrderName::Turn),
            "seed" => Some(OrderName::Seed),
            _ => None,
        }
    }

    /// The order, with the seed that it may carry.
    pub(crate) fn with_seed(self, seed: u64) -> Order
        ensures { result ≡ ordered_by self seed }
    {
        match self {
            OrderName::First => Order::First,
            OrderName::Turn => Order::Turn,
            OrderName::Seed => Order::Seed(seed),
        }
    }
}

/// An option with a value.
#[derive(Clone, Copy)]
pub(crate) enum Valued {
    Budget,
    Size,
    Order,
    Seed,
}

impl Valued {
    /// The option of this name.
    pub(crate) fn named(word: &str) -> Option<Valued>
        ensures { result ≡ option_named word.now }
    {
        match word {
            "--budget" => Some(Valued::Budget),
            "--size" => Some(Valued::Size),
            "--order" => Some(Valued::Order),
            "--seed" => Some(Valued::Seed),
            _ => None,
        }
    }

    /// What the option sets with this value.
    pub(crate) fn setting(self, value: &str) -> Option<Setting>
        ensures { result ≡ setting_of self value.now }
    {
        match self {
            Valued::Budget => Some(Setting::Budget(number_between(value, 0, MOST)?)),
            Valued::Size => Some(Setting::Size(number_between(value, 1, MOST_ITEMS)?)),
            Valued::Order => Some(Setting::Order(OrderName::named(value)?)),
            Valued::Seed => Some(Setting::Seed(number_between(value, 0, MOST)?)),
        }
    }
}

/// The number that a word writes, where `demo` takes it.
pub(crate) fn demo_number(word: &str) -> Option<u64>
    ensures { result ≡ number_from 1 100000 word.now }
{
    number_between(word, 1, MOST_ATOMS)
}

/// The number that a word writes, where it lies between the two.
fn number_between(word: &str, least: u64, most: u64) -> Option<u64>
    ensures { result ≡ number_from least most word.now }
{
    let n = number(word)?;
    if least <= n && n <= most {
        Some(n)
    } else {
        None
    }
}

/// The number that 1 to 19 decimal digits write.
pub(crate) fn number(word: &str) -> Option<u64>
    ensures { result ≡ number_written word.now }
{
    if word.len() > DIGITS || begins_with(word.as_bytes(), b'+') {
        return None;
    }
    word.parse::<u64>().ok()
}

/// Whether a word begins with this byte.
fn begins_with(word: &[u8], byte: u8) -> bool
    ensures { result ≡ begins_with byte word.now }
{
    match word {
        [] => false,
        [first, ..] => *first == byte,
    }
}

/// What the options of `run` set so far, each at most once.
#[derive(Clone, Copy)]
pub(crate) struct Settings {
    trace: bool,
    folded: bool,
    budget: Option<u64>,
    size: Option<u64>,
    order: Option<OrderName>,
    seed: Option<u64>,
}

impl Settings {
    /// Nothing is set.
    pub(crate) fn new() -> Settings
        ensures { result ≡ no_settings }
    {
        Settings {
            trace: false,
            folded: false,
            budget: None,
            size: None,
            order: None,
            seed: None,
        }
    }

    /// The settings with one more; `None` where that option is set already.
    pub(crate) fn with(self, setting: Setting) -> Option<Settings>
        ensures { result ≡ with_setting self setting }
    {
        match setting {
            Setting::Flag(Flag::Trace) => {
                if self.trace {
                    None
                } else {
                    Some(Settings {
                        trace: true,
                        ..self
                    })
                }
            }
            Setting::Flag(Flag::Folded) => {
                if self.folded {
                    None
                } else {
                    Some(Settings {
                        folded: true,
                        ..self
                    })
                }
            }
            Setting::Budget(n) => {
                if self.budget.is_some() {
                    None
                } else {
                    Some(Settings {
                        budget: Some(n),
                        ..self
                    })
                }
            }
            Setting::Size(n) => {
                if self.size.is_some() {
                    None
                } else {
                    Some(Settings {
                        size: Some(n),
                        ..self
                    })
                }
            }
            Setting::Order(name) => {
                if self.order.is_some() {
                    None
                } else {
                    Some(Settings {
                        order: Some(name),
                        ..self
                    })
                }
            }
            Setting::Seed(n) => {
                if self.seed.is_some() {
                    None
                } else {
                    Some(Settings {
                        seed: Some(n),
                        ..self
                    })
                }
            }
        }
    }
}
