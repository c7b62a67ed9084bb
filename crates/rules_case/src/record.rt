// A record: the numbers of a `Rules`, one byte each, in the order of its fields, places that no count covers too. The user class (count, 8 kinds,
// 8 sizes, 8 list numbers), the session class, the item class; users (count, 32 values); sessions (count, 32 users, 32 values); items (count, 32
// values); permissions; 12 lengths; 768 nodes of 4 bytes, least byte first. Then 2 bytes, least first: how many bytes are lent to the writer. 3,293
// in all.
ghost use Rattle.std.specs.Prelude.{◌≤◌};

use policy::{Class, Rules, Sessions, Values};

// The bytes of a record that are not read yet.
#[derive(Drop)]
struct Bytes<'a> {
    left: &'a [u8],
}

impl Bytes<'_> {
    // The next N bytes; zeros where fewer are left.
    fn next<const N: usize>(&mut self) -> [u8; N] {
        match self.left.split_first_chunk::<N>() {
            Some((first, rest)) => {
                self.left = rest;
                *first
            }
            None => [0; N],
        }
    }

    // The next byte; zero where none is left.
    fn byte(&mut self) -> u8 {
        match self.left.split_first() {
            Some((first, rest)) => {
                self.left = rest;
                *first
            }
            None => 0,
        }
    }

    fn class(&mut self, class: &mut Class) {
        class.count = self.byte();
        for attribute in class.attributes.iter_mut() {
            attribute.kind = self.byte();
        }
        for attribute in class.attributes.iter_mut() {
            attribute.size = self.byte();
        }
        for attribute in class.attributes.iter_mut() {
            attribute.list = self.byte();
        }
    }

    fn values(&mut self, values: &mut Values) {
        values.count = self.byte();
        values.values = self.next();
    }

    fn sessions(&mut self, sessions: &mut Sessions) {
        sessions.count = self.byte();
        for session in sessions.sessions.iter_mut() {
            session.user = self.byte();
        }
        for session in sessions.sessions.iter_mut() {
            session.value = self.byte();
        }
    }

    fn nodes(&mut self, nodes: &mut [u32; 768]) {
        let bytes: [u8; 3072] = self.next();
        for k in 0..768 {
            nodes[k] = u32::from_le_bytes([
                bytes[4 * k],
                bytes[4 * k + 1],
                bytes[4 * k + 2],
                bytes[4 * k + 3],
            ]);
        }
    }
}

// Reads the rules that a record holds, and returns how many bytes are lent to the writer, at most 4,096.
pub(super) fn read(bytes: &[u8], rules: &mut Rules) -> usize
    ensures { result ≤ 4096 }
{
    let mut bytes = Bytes { left: bytes };
    bytes.class(&mut rules.classes.user);
    bytes.class(&mut rules.classes.session);
    bytes.class(&mut rules.classes.item);
    bytes.values(&mut rules.users);
    bytes.sessions(&mut rules.sessions);
    bytes.values(&mut rules.items);
    rules.permissions = bytes.byte();
    rules.lengths = bytes.next();
    bytes.nodes(&mut rules.nodes);
    u16::from_le_bytes(bytes.next()).min(4096) as usize
}
