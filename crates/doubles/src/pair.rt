// An earlier record, and one that is compared with it.
ghost use Rattle.std.specs.Prelude.{◌≡◌, map};
ghost use Rattle.model.specs.Base.{any_of, total};
ghost use Rattle.model.specs.GrammarFile.{fields, same_daughters, same_variables, same_in_order};
ghost use Rattle.doubles.specs.Components.{same_components};

use crate::order::Order;
use grammar::byte;

// The earlier record, record e, and how many variables record e has by its component lengths.
#[derive(Clone, Copy)]
pub struct Pair<'a> {
    pub earlier: &'a [u8],
    pub e: &'a [u8],
    pub variables: u32,
    ghost counted: { variables ≡ total (fields e.now 7 4) },
}

impl<'a> Pair<'a> {
    ghost use Rattle.doubles.specs.Order.{positions};

    // Whether the variables of the two records name the same components: no order of the daughters changes these.
    pub fn same_components(&self) -> bool
        ensures { result ≡ same_components self.now.earlier.now self.now.e.now }
    {
        (0..self.variables).all(|place| {
            let i = 11 + place as usize;
            byte(self.e, i) % 4 == byte(self.earlier, i) % 4
        })
    }

    // Whether the daughters of record e, in this order, are those of the earlier record.
    fn same_daughters(&self, order: Order) -> bool
        ensures { result ≡ same_daughters self.now.earlier.now self.now.e.now (positions order) }
    {
        (0..3u8).all(|j| {
            byte(self.e, 2 + usize::from(j))
                == byte(self.earlier, 2 + usize::from(order.position(j)))
        })
    }

    // Whether the variables of record e, renumbered to match this order, are those of the earlier record.
    fn same_variables(&self, order: Order) -> bool
        ensures { result ≡ same_variables self.now.earlier.now self.now.e.now (positions order) }
    {
        (0..self.variables).all(|k| {
            let i = 11 + k as usize;
            order.renumbered(byte(self.e, i)) == u16::from(byte(self.earlier, i))
        })
    }

    // Whether record e is the earlier record once its daughters are put in this order, where all else of the two is the same.
    fn same_in_order(&self, order: Order) -> bool
        ensures { result ≡ same_in_order self.now.earlier.now self.now.e.now (positions order) }
    {
        self.same_daughters(order) && self.same_variables(order)
    }

    // The same of some of these orders.
    pub fn same_in_some(&self, orders: &[Order]) -> bool
        ensures { result ≡ any_of (same_in_order self.now.earlier.now self.now.e.now) (map positions orders.now) }
    {
        orders.iter().any(|order| self.same_in_order(*order))
    }
}
