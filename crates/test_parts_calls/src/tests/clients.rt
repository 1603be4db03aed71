//! Calls of a list of viewers, each with what is to be seen of it, and a thousand steps beside a plain vector of pairs.

ghost use Rattle.std.specs.Prelude.{◌≡◌, ◌+◌, ◌<◌, min, vec_len, IfSome};
ghost use Rattle.client_list.specs.Connected.{changed};

use client_list::{Clients, ConnectError, NoViewer};
use std::alloc::AllocError;

/// A call of the list, or what is to be seen of it.
enum Step {
    Connect(u64, u32),
    InUse(u64),
    /// The viewer leaves, and had this value.
    Remove(u64, u32),
    Nobody(u64),
    /// The value is changed by the number, or that of the first viewer by its position.
    Change(u64, u32),
    ChangeFirst(u32),
    /// Each value is one more, at most the greatest number.
    RaiseAll,
    Is(&'static [(u64, u32)]),
}

use Step::{Change, ChangeFirst, Connect, InUse, Is, Nobody, RaiseAll, Remove};

/// Says whether a walk finds these pairs, in this order, and no others, and so does a look-up of each.
fn is_same(clients: &Clients<u32>, pairs: &[(u64, u32)]) -> bool {
    let mut position = clients.first();
    for (number, value) in pairs {
        let Some(at) = position else {
            return false;
        };
        if clients.number_at(at) != *number
            || clients.at(at) != value
            || clients.get(*number) != Some(value)
            || clients.position_of(*number) != position
        {
            return false;
        }
        position = clients.next(at);
    }
    position.is_none() && clients.len() == pairs.len() && clients.is_empty() == pairs.is_empty()
}

/// Adds one to `value`, at most up to the greatest number.
fn raise(value: &mut u32)
    ensures { value.new ≡ min (value.old + 1) 4294967295 }
{
    *value = value.saturating_add(1);
}

/// Changes each value on the way, as a caller's loop does.
fn raise_all(clients: &mut Clients<u32>)
    ensures pairs { clients.new.pairs ≡ changed (λ n. min (n + 1) 4294967295) clients.old.pairs }
    ensures positions { clients.new.positions ≡ clients.old.positions }
{
    let mut position = clients.first();
    while let Some(at) = position {
        raise(clients.at_mut(at));
        position = clients.next(at);
    }
}

/// Gives a viewer another value. Returns whether the viewer is there.
fn change(clients: &mut Clients<u32>, number: u64, value: u32) -> bool {
    match clients.get_mut(number) {
        Some(there) => {
            *there = value;
            true
        }
        None => false,
    }
}

/// Connects a viewer. Returns false if the list refuses it since its number is in use. An `Err` is want of memory.
fn connect(clients: &mut Clients<u32>, number: u64, value: u32) -> Result<bool, AllocError> {
    match clients.connect(number, value) {
        Ok(()) => Ok(true),
        Err(ConnectError::NumberInUse) => Ok(false),
        Err(ConnectError::OutOfMemory) => Err(AllocError),
    }
}

/// Says whether a call is answered as `step` says.
fn holds(clients: &mut Clients<u32>, step: &Step) -> Result<bool, AllocError> {
    match step {
        Connect(number, value) => connect(clients, *number, *value),
        InUse(number) => Ok(!connect(clients, *number, 99)?),
        Remove(number, value) => Ok(clients.remove(*number) == Ok(*value)),
        Nobody(number) => Ok(
            clients.remove(*number) == Err(NoViewer)
                && clients.get(*number).is_none()
                && clients.position_of(*number).is_none()
                && !change(clients, *number, 99),
        ),
        Change(number, value) => Ok(change(clients, *number, *value)),
        ChangeFirst(value) => {
            let first = clients.first();
            if let Some(first) = first {
                *clients.at_mut(first) = *value;
            }
            Ok(first.is_some())
        }
        RaiseAll => {
            raise_all(clients);
            Ok(true)
        }
        Is(pairs) => Ok(is_same(clients, pairs)),
    }
}

/// Returns the place of `number` in a plain vector.
fn place_of(plain: &Vec<(u64, u32)>, number: u64) -> Option<usize>
    ensures { IfSome result (λ place. place < vec_len plain.now) }
{
    for i in 0..plain.len() {
        if plain[i].0 == number {
            return Some(i);
        }
    }
    None
}

/// Connects a viewer or lets it go on both sides. Returns whether both answer the same.
fn step_both(
    clients: &mut Clients<u32>,
    plain: &mut Vec<(u64, u32)>,
    number: u64,
    step: u32,
) -> Result<bool, AllocError> {
    let place = place_of(plain, number);
    if step % 5 >= 3 {
        return Ok(match place {
            Some(place) => clients.remove(number) == Ok(plain.remove(place).1),
            None => clients.remove(number) == Err(NoViewer),
        });
    }
    let is_new = connect(clients, number, step)?;
    if is_new && plain.push((number, step)).is_err() {
        plain.push((number, step))?;
    }
    Ok(is_new == place.is_none())
}

#[test]
fn clients_whichever_allocation_is_refused(rt: HostRuntime) {
    for (name, steps) in &EXAMPLES {
        let mut clients = Clients::new(rt.alloc());
        for (number, step) in steps.iter().enumerate() {
            let held = match holds(&mut clients, step) {
                Err(_) => holds(&mut clients, step),
                held => held,
            };
            assert!(rt; matches!(held, Ok(true)), "{name}: step {number}");
        }
    }
    let (mut clients, mut plain) = (Clients::new(rt.alloc()), Vec::new(rt.alloc()));
    for step in 0..1000u32 {
        let number = u64::from(step.wrapping_mul(step) / 7 % 31);
        let held = match step_both(&mut clients, &mut plain, number, step) {
            Err(_) => step_both(&mut clients, &mut plain, number, step),
            held => held,
        };
        assert!(rt;
            matches!(held, Ok(true)) && is_same(&clients, &plain),
            "step {step}"
        );
    }
}

static EXAMPLES: [(&str, &[Step]); 6] = [
    (
        "each call once",
        &[
            Is(&[]),
            Nobody(7),
            Connect(7, 70),
            Connect(8, 80),
            Is(&[(7, 70), (8, 80)]),
            Nobody(9),
            Change(8, 81),
            Is(&[(7, 70), (8, 81)]),
            ChangeFirst(71),
            Is(&[(7, 71), (8, 81)]),
            Remove(7, 71),
            Is(&[(8, 81)]),
        ],
    ),
    (
        "the order stays after removals",
        &[
            Connect(1, 10),
            Connect(2, 10),
            Connect(3, 10),
            Connect(4, 10),
            Connect(5, 10),
            Remove(3, 10),
            Is(&[(1, 10), (2, 10), (4, 10), (5, 10)]),
            Remove(1, 10),
            Is(&[(2, 10), (4, 10), (5, 10)]),
            Remove(5, 10),
            Is(&[(2, 10), (4, 10)]),
            Connect(3, 30),
            Connect(1, 10),
            Is(&[(2, 10), (4, 10), (3, 30), (1, 10)]),
            Remove(2, 10),
            Remove(1, 10),
            Remove(4, 10),
            Remove(3, 30),
            Is(&[]),
            Connect(6, 60),
            Is(&[(6, 60)]),
        ],
    ),
    (
        "who connects again comes last",
        &[
            Connect(5, 0),
            Connect(3, 0),
            Connect(9, 0),
            Is(&[(5, 0), (3, 0), (9, 0)]),
            InUse(3),
            Is(&[(5, 0), (3, 0), (9, 0)]),
            Remove(3, 0),
            Connect(3, 2),
            Is(&[(5, 0), (9, 0), (3, 2)]),
            Nobody(4),
            Is(&[(5, 0), (9, 0), (3, 2)]),
        ],
    ),
    (
        "the least number and the greatest one",
        &[
            Connect(0, 1),
            Connect(u64::MAX, 1),
            InUse(0),
            InUse(u64::MAX),
            Is(&[(0, 1), (u64::MAX, 1)]),
        ],
    ),
    (
        "a loop over all viewers",
        &[
            RaiseAll,
            Connect(4, 9),
            Connect(2, u32::MAX),
            Connect(6, 0),
            RaiseAll,
            Is(&[(4, 10), (2, u32::MAX), (6, 1)]),
        ],
    ),
    (
        "ten viewers, for whom room is made several times",
        &[
            Connect(10, 0),
            Connect(11, 1),
            Connect(12, 2),
            Connect(13, 3),
            Connect(14, 4),
            Connect(15, 5),
            Connect(16, 6),
            Connect(17, 7),
            Connect(18, 8),
            Connect(19, 9),
            Is(&[
                (10, 0),
                (11, 1),
                (12, 2),
                (13, 3),
                (14, 4),
                (15, 5),
                (16, 6),
                (17, 7),
                (18, 8),
                (19, 9),
            ]),
        ],
    ),
];
