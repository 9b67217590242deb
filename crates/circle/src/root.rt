// The integer square root, by Newton's iteration.
ghost use Rattle.std.specs.Prelude.{◌+◌, ◌*◌, ◌<◌};
ghost use Rattle.circle.specs.Root.{Root};

// A number that is at least the root of n, and close to it: Newton's step from the power of two that has half as many binary digits as n,
// by which a shift divides.
fn guess(n: u64) -> u64
    ensures { (n < (result + 1) * (result + 1)) × (result < 4294967296) }
{
    let half = (64 - n.leading_zeros()) / 2;
    ((1u64 << half) + (n >> half)) / 2
}

// Inside the library: the largest r with r * r <= n. A step from a number whose square is above n gives a smaller one that is still at least the
// root. How many steps it takes is not known before, so that this is a `while`; std's `isqrt` takes 32, and a circle of d = 2,000 at depth 8 then 2.4 times the instructions.
pub fn isqrt(n: u64) -> u64
    ensures { Root n result }
{
    let mut r = guess(n);
    while n < r * r {
        r = (r + n / r) / 2;
    }
    r
}
