// The listing's text, read byte by byte, and the rows of its first grains.
ghost use Rattle.std.specs.Prelude.{◌≡◌, ◌+◌, ◌≤◌};
ghost use Rattle.listing_text.specs.Columns.{columns, kept};
ghost use Rattle.listing_text.specs.Reading.{start_of, kept_of, feed_of, feed_all, closed_of, fine_of};

use crate::columns::{BOX, COLUMNS, KEPT, MOST};
use text::TextPlan;

// The plan of the text (`text::Reader`). Its line is a grain's.
const PLAN: TextPlan<'static> = TextPlan {
    shown: b"l0,l1,p0,p1,rate,n\r\nAAAAAAAAAAAAAAAA,BBBBBBBBBBBBBBBB,P,Q,EEEEEEEEEEEEEEEE,#+\nx,y,vx,vy,val,rad\r\nFFFFFFFFFFFFFFFF,GGGGGGGGGGGGGGGG,HHHHHHHHHHHHHHHH,IIIIIIIIIIIIIIII,JJJJJJJJJJJJJJJJ,KKKKKKKKKKKKKKKK\r\n",
    line: 97,
};

// What was read by the plan, and the numbers of the first grains.
#[derive(Clone, Copy)]
pub struct Reader {
    pub text: text::Reader,
    pub grains: [u64; KEPT],
}

// Nothing was read.
pub fn start() -> Reader
    ensures { result ≡ start_of }
{
    Reader {
        text: text::start(),
        grains: [0; KEPT],
    }
}

impl Reader {
    // The line's numbers are kept from i on.
    fn keep(&mut self, i: usize)
        requires { i + columns ≤ kept }
        ensures { self.new ≡ kept_of self.old i }
    {
        let numbers = self.text.numbers;
        self.grains[i..i + COLUMNS].copy_from_slice(&numbers[BOX..BOX + COLUMNS]);
    }

    // One byte more. At the end of a grain's line its numbers are kept, those of the first grains.
    #[tactic(auto, unfolding(crate::specs::Reading::plan))]
    pub fn feed(mut self, b: u8) -> Reader
        ensures { result ≡ feed_of self b }
    {
        let line = self.text.seen;
        self.text = self.text.feed(PLAN, b);
        if line < self.text.seen && line < MOST as u64 {
            self.keep(line as usize * COLUMNS);
        }
        self
    }

    // The text is over: a last line that lacks its CR LF is ended.
    pub fn closed(self) -> Reader
        ensures { result ≡ closed_of self }
    {
        let ended = self.feed(b'\r').feed(b'\n');
        if ended.text.at == Some(PLAN.line) {
            ended
        } else {
            self
        }
    }

    // A text of the form is over: n lines of grains were read, and no byte more.
    pub fn fine(self) -> bool
        ensures { result ≡ fine_of self }
    {
        self.text.fine(PLAN)
    }
}

// A part of the text.
pub fn feed_all(r: Reader, s: &[u8]) -> Reader
    ensures { result ≡ feed_all r s.now }
{
    let mut state = r;
    for &b in s {
        state = state.feed(b);
    }
    state
}
