ghost use Rattle.std.specs.Prelude.{◌≡◌, ◌<◌};
ghost use Rattle.lmn_order.specs.Orders.{chosen, followed};

/// In which order membranes are asked.
#[derive(Clone, Copy, Debug, PartialEq, Eq)]
pub enum Order {
    /// From the root on.
    First,
    /// After each commit from the next one on.
    Turn,
    /// From the one that a generator of 64 bits names, by this seed.
    Seed(u64),
}

impl Order {
    /// Which of `m` membranes, at least 1, is asked first after `t` commits: below `m`. One closure serves all orders.
    pub fn choose(self, t: u64, m: u64) -> u64
        requires { 0 < m }
        ensures chosen { result ≡ chosen self t m }
        ensures below { result < m }
    {
        match self {
            Order::First => 0,
            Order::Turn => t % m,
            Order::Seed(seed) => {
                let x = seed
                    .wrapping_add(t)
                    .wrapping_mul(6_364_136_223_846_793_005)
                    .wrapping_add(1_442_695_040_888_963_407);
                (x >> 33) % m
            }
        }
    }
}

/// The number at the place `t` of a list, modulo `m`, which is at least 1; behind the end of the list 0. So a
/// closure may follow any list of numbers.
pub fn follow(numbers: &[u64], t: u64, m: u64) -> u64
    requires { 0 < m }
    ensures followed { result ≡ followed numbers.now t m }
    ensures below { result < m }
{
    match numbers.get(t as usize) {
        Some(number) => *number % m,
        None => 0,
    }
}
