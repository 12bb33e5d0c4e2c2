// A text that a plan shows, read byte by byte: a text of any length goes through a state of fixed size.
//
// The plan shows the text: A to M stand for a hexadecimal digit of the numbers 0 to 12, N to Z for a flag among them, # for the first digit of n and
// + for its others and the CR after them, any other byte for itself. From `line` on it shows one of n lines.
ghost use Rattle.std.specs.Prelude.{◌≡◌, ◌<◌};
ghost use Rattle.text.specs.Letters.{numbers_held};
ghost use Rattle.text.specs.Reading.{start_of, last_of, stuck_of, stepped_of, numbered_of, hexed_of, flagged_of, matched_of, counted_of, first_of, more_of, wanted_of, feed_of, fine_of};

use crate::hex::hex_value;

// The numbers that a plan can name, and its letters for them: from A on one for a digit of each, behind those one for a flag among them.
pub const NUMBERS: usize = 13;

const HEX: u8 = b'A';

const FLAG: u8 = HEX + NUMBERS as u8;

const PAST: u8 = FLAG + NUMBERS as u8;

// A plan: the text that it shows, and where its line begins.
#[derive(Clone, Copy)]
pub struct TextPlan<'a> {
    pub shown: &'a [u8],
    pub line: usize,
}

impl TextPlan<'_> {
    // The last place.
    fn last(self) -> usize
        ensures { result ≡ last_of self.entry.shown.now }
    {
        self.shown.len().saturating_sub(1)
    }
}

// What was read: the place in the plan, none where no text of the form goes on; n, the lines ended, and the numbers that the plan names.
#[derive(Clone, Copy)]
pub struct Reader {
    pub at: Option<usize>,
    pub n: u64,
    pub seen: u64,
    pub numbers: [u64; NUMBERS],
}

// Nothing was read.
pub fn start() -> Reader
    ensures { result ≡ start_of }
{
    Reader {
        at: Some(0),
        n: 0,
        seen: 0,
        numbers: [0; NUMBERS],
    }
}

impl Reader {
    // No text of the form goes on so.
    fn stuck(self) -> Reader
        ensures { result ≡ stuck_of self }
    {
        Reader { at: None, ..self }
    }

    // On to the next place; from the plan's last to the next line.
    #[tactic(auto, unfolding(crate::specs::Reading::stepped_of))]
    fn step(self, plan: TextPlan) -> Reader
        ensures { result ≡ stepped_of (last_of plan.entry.shown.now) plan.entry.line self }
    {
        match self.at {
            Some(at) if at < plan.last() => Reader {
                at: Some(at + 1),
                ..self
            },
            _ if self.seen < self.n => Reader {
                at: Some(plan.line),
                seen: self.seen + 1,
                ..self
            },
            _ => self.stuck(),
        }
    }

    // Number j is v.
    fn numbered(mut self, j: usize, v: u64) -> Reader
        requires { j < numbers_held }
        ensures { result ≡ numbered_of self j v }
    {
        self.numbers[j] = v;
        self
    }

    // A hexadecimal digit of number j. Sixteen push out whatever stood there.
    #[tactic(auto, unfolding(crate::specs::Reading::hexed_of))]
    fn hexed(self, plan: TextPlan, b: u8, j: usize) -> Reader
        requires { j < numbers_held }
        ensures { result ≡ hexed_of (last_of plan.entry.shown.now) plan.entry.line self b j }
    {
        match hex_value(b) {
            Some(d) => self.numbered(j, (self.numbers[j] << 4) + d).step(plan),
            None => self.stuck(),
        }
    }

    // Number j is 0 or 1.
    #[tactic(auto, unfolding(crate::specs::Reading::flagged_of))]
    fn flagged(self, plan: TextPlan, b: u8, j: usize) -> Reader
        requires { j < numbers_held }
        ensures { result ≡ flagged_of (last_of plan.entry.shown.now) plan.entry.line self b j }
    {
        match b {
            b'0' => self.numbered(j, 0).step(plan),
            b'1' => self.numbered(j, 1).step(plan),
            _ => self.stuck(),
        }
    }

    // The byte that the plan shows.
    #[tactic(auto, unfolding(crate::specs::Reading::matched_of))]
    fn matched(self, plan: TextPlan, b: u8, want: u8) -> Reader
        ensures { result ≡ matched_of (last_of plan.entry.shown.now) plan.entry.line self b want }
    {
        if b == want {
            self.step(plan)
        } else {
            self.stuck()
        }
    }

    // n is what it was and the digit d, where that fits 64 bits.
    #[tactic(auto, unfolding(crate::specs::Reading::counted_of))]
    fn counted(self, d: u64) -> Reader
        requires { d < 10 }
        ensures { result ≡ counted_of self d }
    {
        match self.n.checked_mul(10).and_then(|n| n.checked_add(d)) {
            Some(n) => Reader { n, ..self },
            None => self.stuck(),
        }
    }

    // The first digit of n.
    #[tactic(auto, unfolding(crate::specs::Reading::first_of))]
    fn first(self, plan: TextPlan, b: u8) -> Reader
        ensures { result ≡ first_of (last_of plan.entry.shown.now) plan.entry.line self b }
    {
        match b {
            b'0'..=b'9' => Reader {
                n: u64::from(b - b'0'),
                ..self
            }
            .step(plan),
            _ => self.stuck(),
        }
    }

    // A further digit of n, or the CR after it. No digit follows a 0 that came first.
    #[tactic(auto, unfolding(crate::specs::Reading::more_of))]
    fn more(self, plan: TextPlan, b: u8) -> Reader
        ensures { result ≡ more_of (last_of plan.entry.shown.now) plan.entry.line self b }
    {
        match b {
            b'\r' => self.step(plan),
            b'0'..=b'9' if self.n != 0 => self.counted(u64::from(b - b'0')),
            _ => self.stuck(),
        }
    }

    // By what the plan shows.
    #[tactic(auto, unfolding(crate::specs::Reading::wanted_of))]
    fn wanted(self, plan: TextPlan, b: u8, want: u8) -> Reader
        ensures { result ≡ wanted_of (last_of plan.entry.shown.now) plan.entry.line self b want }
    {
        match want {
            b'#' => self.first(plan, b),
            b'+' => self.more(plan, b),
            HEX..FLAG => self.hexed(plan, b, usize::from(want - HEX)),
            FLAG..PAST => self.flagged(plan, b, usize::from(want - FLAG)),
            _ => self.matched(plan, b, want),
        }
    }

    // One byte more. After n lines there is none.
    #[tactic(auto, unfolding(crate::specs::Reading::feed_of))]
    pub fn feed(self, plan: TextPlan, b: u8) -> Reader
        ensures { result ≡ feed_of plan.entry.shown.now plan.entry.line self b }
    {
        let Some(at) = self.at else {
            return self;
        };
        let Some(&want) = plan.shown.get(at) else {
            return self;
        };
        if at == plan.line && self.n <= self.seen {
            return self.stuck();
        }
        self.wanted(plan, b, want)
    }

    // A text of the form is over: n lines were read, and no byte more.
    pub fn fine(self, plan: TextPlan) -> bool
        ensures { result ≡ fine_of plan.entry.line self }
    {
        self.at == Some(plan.line) && self.seen == self.n
    }
}
