//! The head of the next message.
ghost use Rattle.std.specs.Prelude.{◌≡◌, ◌≤◌, ◌<◌, length};
ghost use Rattle.h1_head.specs.declared.answer.Side.{Side};
ghost use Rattle.lane.specs.Direction.Sends.{IsReading};
ghost use Rattle.lane.specs.Direction.Heads.{HeadTells};
ghost use Rattle.lane.specs.declared.direction.stage.LaneHead.TheVariants as says;

use crate::direction::lane::Lane;
use crate::direction::stage::{LaneHead, Stage};
use h1_head::laws::{drops_lines, has_bytes};
use h1_head::{HeadRead, Side};

impl Lane {
    /// Reads the head of the next message. The bytes that were looked at before are read again only once a line ends
    /// behind them.
    pub fn read_head(&mut self, side: Side) -> LaneHead
        requires { IsReading side self.old }
        ensures tells { HeadTells side self.old self.new result }
        ensures limits { self.new.limits ≡ self.old.limits }
        ensures ended { self.new.ended ≡ self.old.ended }
        ensures sieve { self.new.sieve ≡ self.old.sieve }
        ensures shrinks { length self.new.input.items ≤ length self.old.input.items }
        ensures takes { result ≡ says.Head → length self.new.input.items < length self.old.input.items }
        ensures output { self.new.output ≡ self.old.output }
        ensures out { self.new.out ≡ self.old.out }
        ensures kept { self.new.dropped ≡ self.old.dropped }
    {
        drops_lines();
        has_bytes();
        let whole = self.ended.is_some();
        match self
            .input
            .read_head(self.scanned, whole, side, self.limits, &mut self.msg)
        {
            HeadRead::More { skip } => {
                self.input.drop_front(skip);
                self.scanned = self.input.len();
                if whole {
                    return LaneHead::Nothing;
                }
                LaneHead::More
            }
            HeadRead::Head {
                used,
                framing,
                declared,
                close,
            } => {
                self.input.drop_front(used);
                self.framing = framing;
                self.declared = declared;
                self.close = close;
                self.stage = Stage::Head;
                LaneHead::Head
            }
            HeadRead::Refuse { code, why: _ } => {
                self.stage = Stage::Done;
                LaneHead::Refuse(code)
            }
        }
    }
}
