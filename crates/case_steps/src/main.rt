// Runs a stored list of steps by `monitor::step_with`, each with the next numbers that the one before gave back. Prints for each row what it
// came to and the next numbers after it, and at the end the cells.
#![tactic(auto)]

use live::Next;
use refusal::Refusal;
use std::io;

// Rows, each as kind, actor, target, value and spare, and the answer that paper 01 gives, worked out by hand.
const ROWS: [u64; 12] = [
    0x1_00001_00000_001_00, // 16: user 1 holds no member
    0x1_00000_00000_001_00, // done: session 0
    0x4_00000_00000_000_00, // done: item 0
    0x6_00000_00000_000_00, // 16: the item's value is 0
    0x5_00000_00000_001_00, // done
    0x6_00000_00000_000_00, // done: the grant
    0x2_00000_00000_001_00, // 12: close with a value
    0x2_00000_00000_000_00, // done
    0x4_00000_00001_000_00, // 13: session 0 is closed
    0x1_00000_00001_001_00, // done: session 1
    0x1_00000_00002_001_00, // 15: there are two session cells
    0x1_00000_00002_002_00, // 14: a session's value has one bit
];

// What a cell holds that no step has written.
const BEFORE: u64 = 7;

fn print_step<T: Copy>(rt: &impl Print, outcome: Result<T, Refusal>, next: Next) -> io::Result<()> {
    match outcome {
        Ok(_) => {
            print!(rt; "done")?;
        }
        Err(refusal) => {
            let number = u8::from(refusal);
            print!(rt; "refused {number}")?;
        }
    }
    let session = next.session;
    let item = next.item;
    println!(rt; ", next {session} {item}")
}

fn print_cells(rt: &impl Print, what: &str, [first, second]: [u64; 2]) -> io::Result<()> {
    println!(rt; "{what} {first} {second}")
}

fn main(rt: HostRuntime) -> io::Result<()> {
    // paper 01's counter file
    let file =
        b"\x11\x11\x00\x00\x80\x84\x08\x40\x08\x08\x06\x50\x00\x00\x65\x00\x00\x05\x60\x28\x00\x62\x80\x80\x0E\x28\x08\x15\x82\x84\xC0\x00\x40";
    let mut sessions: [u64; 2] = [BEFORE; 2];
    let mut items: [u64; 2] = [BEFORE; 2];
    let begun = starting::start(file, &mut sessions, &mut items);
    let none = Next {
        session: 0,
        item: 0,
    };
    let mut next = begun.outcome.unwrap_or(none);
    print_step(&rt, begun.outcome, next)?;
    for row in ROWS {
        let stepped = monitor::step_with(begun.rules, &mut sessions, &mut items, next, row);
        next = stepped.unwrap_or(next);
        print_step(&rt, stepped, next)?;
    }
    print_cells(&rt, "sessions", sessions)?;
    print_cells(&rt, "items", items)
}
