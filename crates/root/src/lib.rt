// The correctly rounded square root of an f64, found over whole numbers.
#![tactic(auto)]

ghost use Rattle.std.specs.Prelude.{◌≡◌, ◌+◌, ◌*◌, ◌/◌, ◌%◌, ◌^◌, ◌≤◌, ◌<◌};
ghost use Rattle.root.specs.Isqrt.{near};
ghost use Rattle.root.specs.Step.{taken, ReadyOne, ReadyMore, DigitsOf};
ghost use Rattle.root.specs.Bits.{bits_of_root, root_bits};
ghost use Rattle.root.specs.Root.{root_of};
ghost use Rattle.root.specs.Rule.{RootRule};

// The root so far, and what is left of the part of the argument that was taken.
#[derive(Clone, Copy)]
struct Digits {
    pub q: u64,
    pub rem: u64,
}

// One binary digit more, by the next two of the argument. It is a number: a branch could go either way, and processors would often guess it wrong.
fn step(s: Digits, two: u64) -> Digits
    requires { ReadyOne s two }
    ensures { DigitsOf (taken s * 4 + two) result }
{
    let next = s.rem * 4 + two;
    let one = s.q * 4 + 1;
    let digit = u64::from(one <= next);
    Digits {
        q: s.q * 2 + digit,
        rem: next - digit * one,
    }
}

// As many digits more as the unit has, by twice as many of the argument, in two halves. The division by twice the root gives them, or one too much.
fn more(s: Digits, unit: u64, high: u64, low: u64) -> Digits
    requires { ReadyMore s unit high low }
    ensures { DigitsOf (taken s * (unit * unit) + (high * unit + low)) result }
{
    let next = s.rem * unit + high;
    let twice = s.q * 2;
    let digits = next / twice;
    let left = next % twice * unit + low;
    let square = digits * digits;
    let q = s.q * unit + digits;
    if left < square {
        // the remainder is negative: one step back
        Digits {
            q: q - 1,
            rem: left + (q * 2 - 1) - square,
        }
    } else {
        Digits {
            q,
            rem: left - square,
        }
    }
}

// The whole number nearest to the square root of a * 4 ^ 26, which has a's 54 digits and 52 zeros. By the first 14 of them 7 digits of the root are found,
// one by one; by the next 14, the last 26 and the zeros they become 14, 27 and 53.
fn near_root(a: u64) -> u64
    requires { (2 ^ 52 ≤ a) × (a < 2 ^ 54) }
    ensures { result ≡ near (a * 4 ^ 26) }
{
    let mut s = Digits { q: 0, rem: 0 };
    let mut reg = a >> 40;
    for _ in 0..7u64 {
        s = step(s, reg >> 12);
        reg = reg % 4096 * 4;
    }
    s = more(s, 128, (a >> 33) % 128, (a >> 26) % 128);
    s = more(s, 8192, (a >> 13) % 8192, a % 8192);
    s = more(s, 1 << 26, 0, 0);
    if s.q < s.rem { s.q + 1 } else { s.q }
}

// The lowest bit of a float's exponent, where its significand's leading digit would stand.
const TOP: u64 = 1 << 52;

// The bits of the root of m * 2 ^ (b - 1126).
fn finished(m: u64, b: u64) -> u64
    requires { (2 ^ 52 ≤ m) × (m < 2 ^ 53) × (b ≤ 2097) }
    ensures { result ≡ bits_of_root m b }
{
    let high = (b / 2 + 485) * TOP;
    high + near_root(m << (b % 2))
}

// From the bits of a positive finite value to those of its root.
fn root_bits(bits: u64) -> u64
    requires { (0 < bits) × (bits < 0x7ff0_0000_0000_0000) }
    ensures { result ≡ root_bits bits }
{
    let field = bits / TOP;
    let t = bits % TOP;
    if field == 0 {
        // a subnormal significand is brought to full width by its leading zeros
        let z = u64::leading_zeros(t) as u64;
        finished(t << (z - 11), 63 - z)
    } else {
        finished(t + TOP, field + 51)
    }
}

// The correctly rounded square root. A NaN has none, nor has what is below 0.
pub fn square_root(x: f64) -> Option<f64>
    ensures value { result ≡ root_of x }
    ensures root_rule { RootRule x result }
{
    if x.is_nan() || x < 0.0 {
        return None;
    }
    if x == 0.0 || x == f64::INFINITY {
        return Some(x);
    }
    Some(f64::from_bits(root_bits(x.to_bits())))
}
