// The orders of the daughters.
ghost use Rattle.std.specs.Prelude.{◌≡◌, get_or, map};
ghost use Rattle.model.specs.GrammarFile.{renumbered, other_orders};
ghost use Rattle.doubles.specs.Order.{positions};

use grammar::byte;

// An order of the daughters: the positions that the first, the second and the third come to.
#[derive(Clone, Copy)]
pub struct Order([u8; 3]);

impl Order {
    // The position that the daughter at position j comes to.
    pub fn position(self, j: u8) -> u8
        ensures { result ≡ get_or (positions self) j 0 }
    {
        byte(&self.0, usize::from(j))
    }

    // A variable, renumbered to match the order.
    pub fn renumbered(self, v: u8) -> u16
        ensures { result ≡ renumbered (positions self) v }
    {
        4 * u16::from(self.position(v / 4)) + u16::from(v % 4)
    }
}

const ORDERS_OF_TWO: [Order; 1] = [Order([1, 0, 2])];

const ORDERS_OF_THREE: [Order; 5] = [
    Order([0, 2, 1]),
    Order([1, 0, 2]),
    Order([1, 2, 0]),
    Order([2, 0, 1]),
    Order([2, 1, 0]),
];

// The orders of n daughters, but for the one that they have.
pub fn other_orders(n: u8) -> &'static [Order]
    ensures { map positions result.now ≡ other_orders n }
{
    match n {
        2 => &ORDERS_OF_TWO,
        3 => &ORDERS_OF_THREE,
        _ => &[],
    }
}
