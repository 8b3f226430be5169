//! Operators, if there are any.
ghost use Rattle.control_lines.specs.Perhaps.{Becomes, line_of, wish_of};

use crate::operators::Operators;
use crate::talk::Wish;

impl<P: Operators> Operators for Option<P> {
    ghost wish = { wish_of P.wish };

    ghost line = { line_of P.line };

    ghost turns = { λ now old new. Becomes (P.turns now) old new };

    ghost hears = { λ key octets goes_on old new. Becomes (P.hears key octets goes_on) old new };

    fn turn(&mut self, now: u64) {
        if let Some(operators) = self {
            operators.turn(now);
        }
    }

    fn wish(&self, key: usize) -> Wish {
        match self {
            Some(operators) => operators.wish(key),
            None => Wish::Nothing,
        }
    }

    fn line(&self, key: usize) -> &[u8] {
        match self {
            Some(operators) => operators.line(key),
            None => &[],
        }
    }

    fn say(&mut self, key: usize, octets: &[u8], goes_on: bool) {
        if let Some(operators) = self {
            operators.say(key, octets, goes_on);
        }
    }

    fn is_busy(&self) -> bool {
        match self {
            Some(operators) => operators.is_busy(),
            None => false,
        }
    }
}
