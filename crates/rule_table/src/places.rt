// Where the variables of a rule stand in its components. The rule is a record e of the grammar file.
ghost use Rattle.std.specs.Prelude.{◌≡◌, ◌+◌, ◌*◌, ◌<◌, ◌≤◌, ltb, if◌then◌else◌};
ghost use Rattle.rule_table.specs.Places.{Small, first_of, stand_at, stand_of};

use grammar::byte;

// The lengths of the components begin at this byte of a record, and the variables at this one.
pub const LENGTHS: usize = 7;

const FIRST: usize = 11;

// A record has room for so many variables.
const VARIABLES: usize = 12;

// The component in which a variable stands, and its position there, from 0.
#[derive(Clone, Copy)]
pub struct Stand {
    pub component: u64,
    pub position: u64,
}

// The number of the first variable that is x, all components together; 12, behind them all, where there is none, as in the definition, whose number goes on into
// `stand_at`.
fn first_of(e: &[u8], x: usize) -> usize
    ensures { (result ≡ first_of e.now x 0 12) × (result ≤ 12) }
{
    for v in 0..VARIABLES {
        if usize::from(byte(e, FIRST + v)) == x {
            return v;
        }
    }
    VARIABLES
}

// The component and the position of variable number v.
fn stand_at(e: &[u8], v: usize) -> Stand
    requires { v ≤ 12 }
    ensures { (result ≡ stand_at e.now v) × Small result }
{
    let one = usize::from(byte(e, LENGTHS));
    if v < one {
        return Stand {
            component: 0,
            position: v as u64,
        };
    }
    let two = one + usize::from(byte(e, LENGTHS + 1));
    if v < two {
        return Stand {
            component: 1,
            position: (v - one) as u64,
        };
    }
    let three = two + usize::from(byte(e, LENGTHS + 2));
    if v < three {
        return Stand {
            component: 2,
            position: (v - two) as u64,
        };
    }
    Stand {
        component: 3,
        position: (v - three) as u64,
    }
}

// Where the variable of component c of daughter j stands.
pub fn stand_of(e: &[u8], j: usize, c: usize) -> Stand
    requires { (j < 3) × (c < 4) }
    ensures { (result ≡ stand_of e.now j c) × Small result }
{
    stand_at(e, first_of(e, 4 * j + c))
}

// The same for a daughter of n components, whose component 0 stands at `zero`; a component that it does not have repeats that.
pub fn stand_or(e: &[u8], n: usize, j: usize, c: usize, zero: Stand) -> Stand
    requires { (j < 3) × (c < 4) × Small zero }
    ensures { (result ≡ if ltb c n then stand_of e.now j c else zero) × Small result }
{
    if c < n { stand_of(e, j, c) } else { zero }
}
