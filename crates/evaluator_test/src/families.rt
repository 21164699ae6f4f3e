// The families of files that are built in loops: how many nodes a member has, and each of them.
ghost use Rattle.std.specs.Prelude.{◌≤◌};

#[derive(Clone, Copy)]
pub struct Node {
    pub tag: u8,
    pub argument: usize,
}

fn variable(name: usize) -> Node {
    Node {
        tag: 0,
        argument: name,
    }
}

fn abstraction(name: usize) -> Node {
    Node {
        tag: 1,
        argument: name,
    }
}

fn application(left: usize) -> Node {
    Node {
        tag: 2,
        argument: left,
    }
}

// The difference, or 0 where it would be negative.
fn minus(a: usize, b: usize) -> usize
    ensures { result ≤ a }
{
    if a < b { 0 } else { a - b }
}

// How many nodes the member k of a family has.
pub fn nodes_in(family: u8, k: usize) -> usize {
    if k > 20000 {
        return 0;
    }
    match family {
        65 => k + 1,
        76 => 2 * k + 1,
        82 => 2 * k + 1,
        69 => 5 * k + 1,
        67 => 3 * k + 1,
        77 => 3 * k + 65,
        87 => 5 * k + 1,
        _ => 0,
    }
}

// The node i of the member k of a family. The free name 0 is y.
// A: k nested abstractions around the first one's name.
// L, R: k applications of y, nested in their left parts or in their right parts.
// E: t_k, where t_0 is y and t_(k + 1) is λx. x x applied to t_k.
// C: a chain of k names, (λx1. (λx2. (.. xk ..) x1) y.
// M: (λm. m (m (.. (m y)))) (λx0. C with x0 for y), with 30 applications of m.
// W: C, where xk is applied to itself k times.
pub fn node_in(family: u8, k: usize, i: usize) -> Node {
    if k > 20000 {
        return variable(0);
    }
    if i > 20000 {
        return variable(0);
    }
    match family {
        65 => {
            if i < k {
                return abstraction(i);
            }
            variable(0)
        }
        76 => {
            if i < k {
                return application(minus(2 * k, 1 + 2 * i));
            }
            variable(0)
        }
        82 => {
            if i % 2 == 0 {
                if i < 2 * k {
                    return application(1);
                }
            }
            variable(0)
        }
        69 => node_of_explosion(k, i),
        67 => node_of_chain(k, 1, 1, 0, i),
        77 => node_of_repeated(k, i),
        87 => node_of_wide(k, i),
        _ => variable(0),
    }
}

fn node_of_explosion(k: usize, i: usize) -> Node {
    if i / 5 >= k {
        return variable(0);
    }
    match i % 5 {
        0 => application(4),
        1 => abstraction(1 + i / 5),
        2 => application(1),
        _ => variable(1 + i / 5),
    }
}

// The node i of a chain of k names from `first` on, whose innermost body has so many nodes and stands
// for the last name, and whose outermost argument is the name `last`.
fn node_of_chain(k: usize, first: usize, body: usize, last: usize, i: usize) -> Node
    requires { (k ≤ 20000) × (first ≤ 100) × (body ≤ 100000) × (i ≤ 20000) }
{
    if i < 2 * k {
        if i % 2 == 0 {
            return application(minus(minus(3 * k + body, 3 * (i / 2)), 2));
        }
        return abstraction(first + i / 2);
    }
    if i == 3 * k {
        return variable(last);
    }
    variable(minus(first + 3 * k, 1 + i))
}

fn node_of_repeated(k: usize, i: usize) -> Node
    requires { (k ≤ 20000) × (i ≤ 20000) }
{
    if i == 0 {
        return application(62);
    }
    if i == 1 {
        return abstraction(1);
    }
    if i < 62 {
        if i % 2 == 0 {
            return application(1);
        }
        return variable(1);
    }
    if i == 62 {
        return variable(0);
    }
    if i == 63 {
        return abstraction(2);
    }
    node_of_chain(k, 3, 1, 2, i - 64)
}

fn node_of_wide(k: usize, i: usize) -> Node
    requires { (k ≤ 20000) × (i ≤ 20000) }
{
    if i < 2 * k {
        return node_of_chain(k, 1, 2 * k + 1, 0, i);
    }
    if i < 3 * k {
        return application(minus(6 * k, 1 + 2 * i));
    }
    if i < 4 * k {
        return variable(k);
    }
    node_of_chain(k, 1, 1, 0, i - 2 * k)
}
