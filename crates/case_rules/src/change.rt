// Rules with one number changed: part by part in the order of PARTS in tests/vectors/make.py. A place beyond its array changes nothing.
use policy::{Class, Classes, Rules, Sessions};

// One place of an array is set; one beyond its end changes nothing.
fn set<T: Copy>(places: &mut [T], k: usize, v: T) {
    if k < places.len() {
        places[k] = v;
    }
}

// The class with its count, a kind, a size or a list number changed.
fn class_changed(class: Class, what: usize, k: usize, v: u8) -> Class {
    let mut c = class;
    if what == 0 {
        c.count = v;
        return c;
    }
    if let Some(attribute) = c.attributes.get_mut(k) {
        match what {
            1 => {
                attribute.kind = v;
            }
            2 => {
                attribute.size = v;
            }
            _ => {
                attribute.list = v;
            }
        }
    }
    c
}

// The starting sessions with the user of one of them changed, or its value.
fn sessions_changed(sessions: Sessions, of_user: bool, k: usize, v: u8) -> Sessions {
    let mut s = sessions;
    if let Some(session) = s.sessions.get_mut(k) {
        if of_user {
            session.user = v;
        } else {
            session.value = v;
        }
    }
    s
}

// The classes with one of them changed: 0 users, 1 sessions, 2 items.
fn classes_changed(classes: Classes, which: usize, what: usize, k: usize, v: u8) -> Classes {
    match which {
        0 => Classes {
            user: class_changed(classes.user, what, k, v),
            ..classes
        },
        1 => Classes {
            session: class_changed(classes.session, what, k, v),
            ..classes
        },
        _ => Classes {
            item: class_changed(classes.item, what, k, v),
            ..classes
        },
    }
}

// The rules with part `part` changed, at place k where it is an array.
pub(super) fn changed(rules: Rules, part: usize, k: usize, value: usize) -> Rules {
    let v = (value % 4294967296) as u32;
    let b = (value % 256) as u8;
    let mut r = rules;
    match part {
        0..=2 => {
            r.classes = classes_changed(rules.classes, part, 0, 0, b);
        }
        3 => {
            r.users.count = b;
        }
        4 => {
            r.sessions.count = b;
        }
        5 => {
            r.items.count = b;
        }
        6 => {
            r.permissions = b;
        }
        7..=12 => {
            r.classes = classes_changed(rules.classes, (part - 7) / 2, 1 + (part - 7) % 2, k, b);
        }
        13 => set(&mut r.users.values, k, b),
        14 | 15 => {
            r.sessions = sessions_changed(rules.sessions, part == 14, k, b);
        }
        16 => set(&mut r.items.values, k, b),
        17 => set(&mut r.lengths, k, b),
        18 => set(&mut r.nodes, k, v),
        _ => {
            r.classes = classes_changed(rules.classes, part - 19, 3, k, b);
        }
    }
    r
}
