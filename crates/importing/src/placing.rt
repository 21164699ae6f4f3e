// Nodes put into arrays as they are read. An application is put before its left part's size is
// known: until that part is at its end, the argument holds how many abstractions are around the
// application, and its place stands in the array of open applications.
ghost use Rattle.std.specs.Prelude.{◌≡◌, ℕ, ◌+◌, ◌<◌, ◌≤◌, length};
ghost use Rattle.fireball.specs.Term.{Term};
ghost use Rattle.binary.specs.Reading.{Place, body, left, part, ended, variable};
ghost use Rattle.importing.specs.Holding.{Before, After, Ready, Closable, name_of};

// How far the reading is: the nodes read, the abstractions around the next one, the applications
// whose left part is not at its end, and the name that the next abstraction binds. A value beside the
// arrays and no part of them, since each function here is held to the spot before it and the one behind.
#[derive(Clone, Copy)]
pub struct Spot {
    pub nodes: usize,
    pub depth: usize,
    pub pending: usize,
    pub name: usize,
}

// Arrays for an import's own use, with room for N nodes: the tags and the arguments of the nodes read,
// by depth the names of the abstractions around the next one, and the places of the open applications.
// A tag is a number and no enum, since it is a byte of the file.
#[derive(Drop)]
pub struct Scratch<const N: usize> {
    pub tags: [u8; N],
    pub args: [u16; N],
    pub names: [u16; N],
    pub apps: [u16; N],
}

// The name of the variable with the index k under so many abstractions.
fn name_of(names: &[u16], depth: usize, k: usize) -> u16
    requires depth_in_bounds { depth ≤ length names.now }
    requires few_indices { k < depth + 32768 }
    ensures { result ≡ name_of names.now depth k }
{
    if k < depth {
        names[depth - 1 - k]
    } else {
        (k - depth) as u16
    }
}

impl<const N: usize> Scratch<N> {
    // Puts an abstraction; what follows is its body.
    pub fn put_abstraction(&mut self, spot: Spot) -> Spot
        requires { Ready spot N }
        ensures put { (f : ℕ) (p : Place) → Before f p spot self.old → Before f (body p) result self.new }
        ensures kept { self.new.apps ≡ self.old.apps }
    {
        let at = spot.nodes;
        let name = spot.name as u16;
        self.tags[at] = 1;
        self.args[at] = name;
        self.names[spot.depth] = name;
        Spot {
            nodes: at + 1,
            depth: spot.depth + 1,
            pending: spot.pending,
            name: spot.name + 1,
        }
    }

    // Puts an application; what follows is its left part.
    pub fn put_application(&mut self, spot: Spot) -> Spot
        requires { Ready spot N }
        ensures put { (f : ℕ) (p : Place) → Before f p spot self.old → Before f (left p) result self.new }
        ensures kept { self.new.names ≡ self.old.names }
    {
        let at = spot.nodes;
        self.tags[at] = 2;
        self.args[at] = spot.depth as u16;
        self.apps[spot.pending] = at as u16;
        Spot {
            nodes: at + 1,
            depth: spot.depth,
            pending: spot.pending + 1,
            name: spot.name,
        }
    }

    // Puts the variable with the index k, which is a whole term.
    pub fn put_variable(&mut self, spot: Spot, k: usize) -> Spot
        requires ready { Ready spot N }
        requires few_indices { k < spot.depth + 32768 }
        ensures put { (f : ℕ) (p : Place) → Before f p spot self.old
            → After f p (variable spot.depth k) result self.new }
        ensures kept { (self.new.names ≡ self.old.names) × (self.new.apps ≡ self.old.apps) }
    {
        let at = spot.nodes;
        self.tags[at] = 0;
        self.args[at] = name_of(&self.names, spot.depth, k);
        Spot {
            nodes: at + 1,
            depth: spot.depth,
            pending: spot.pending,
            name: spot.name,
        }
    }

    // Closes the innermost application whose left part is not at its end: that part has just ended, and
    // what follows is the right part.
    pub fn close_left(&mut self, spot: Spot) -> Spot
        requires { Closable spot self.old }
        ensures closed { (f : ℕ) (p q : Place) (t : Term) → ended p t ≡ part q → After f p t spot self.old
            → Before f q result self.new }
        ensures kept { (self.new.tags ≡ self.old.tags) × (self.new.names ≡ self.old.names) × (self.new.apps ≡ self.old.apps) }
    {
        let pending = spot.pending - 1;
        let app = self.apps[pending] as usize;
        let depth = self.args[app] as usize;
        self.args[app] = (spot.nodes - app - 1) as u16;
        Spot {
            nodes: spot.nodes,
            depth,
            pending,
            name: spot.name,
        }
    }
}
