// The library for C and Rust hosts: each call returns 0, or paper 01's number, and is one call of a crate below.
#![tactic(auto)]

ghost use Rattle.std.specs.Prelude.{◌≡◌, length};
ghost use Rattle.rules.specs.Answers.{reading, bits_taken, filled};
ghost use Rattle.live.specs.Lent.{lent_as, host_number};
ghost use Rattle.replay.specs.Replay.{replayed};
ghost use Rattle.analyser.specs.Means.{Means};
ghost use Rattle.host_files.specs.Numbers.{number_of, rewritten, write_number, write_length};
ghost use Rattle.host_steps.specs.Steps.{host_started, host_stepped, host_steps};

// Reads a rule file: 0 where it is accepted, or the file's number.
#[unsafe(no_mangle)]
pub extern "C" fn rights_read(file: &[u8]) -> u32
    ensures { result ≡ number_of (reading file.now) }
{
    host_files::read(file)
}

// Reads a rule file as `rights_read` does; `bits` becomes how many of the file's bits were taken, with a number too.
#[unsafe(no_mangle)]
pub extern "C" fn rights_read_bits(file: &[u8], bits: &mut u64) -> u32
    ensures value { result ≡ number_of (reading file.now) }
    ensures bits_after { bits.new ≡ bits_taken file.now }
{
    host_files::read_bits(file, bits)
}

// Reads a rule file and writes its rules back to the front of `out`: 0 and the length, or the file's number, or 11 where `out` is
// too short; then the length is 0 and `out` is as it was.
#[unsafe(no_mangle)]
pub extern "C" fn rights_write_back(file: &[u8], out: &mut [u8], size: &mut usize) -> u32
    ensures value { result ≡ write_number (rewritten (reading file.now)) (length out.old) }
    ensures size_after { size.new ≡ write_length (rewritten (reading file.now)) (length out.old) }
    ensures out_after { out.new ≡ filled (rewritten (reading file.now)) out.old }
{
    host_files::write_back(file, out, size)
}

// Starts a live state: 0 and the starting cells and next numbers written, or the file's number, or 15; then nothing changes.
#[unsafe(no_mangle)]
pub extern "C" fn rights_start(
    file: &[u8],
    sessions: &mut [u64],
    items: &mut [u64],
    session: &mut u64,
    item: &mut u64,
) -> u32
    ensures value { result ≡ host_number (host_started (reading file.now) (lent_as sessions.old items.old record { session = session.old; item = item.old })).refusal }
    ensures item_after { lent_as sessions.new items.new record { session = session.new; item = item.new } ≡ (host_started (reading file.now) (lent_as sessions.old items.old record { session = session.old; item = item.old })).lent }
{
    host_steps::start(file, sessions, items, session, item)
}

// Carries out a step on a live state: 0, or the file's number, or 12 to 16 of the row; then nothing changes.
#[unsafe(no_mangle)]
pub extern "C" fn rights_step(
    file: &[u8],
    sessions: &mut [u64],
    items: &mut [u64],
    session: &mut u64,
    item: &mut u64,
    row: u64,
) -> u32
    ensures value { result ≡ host_number (host_stepped (reading file.now) (lent_as sessions.old items.old record { session = session.old; item = item.old }) row).refusal }
    ensures item_after { lent_as sessions.new items.new record { session = session.new; item = item.new } ≡ (host_stepped (reading file.now) (lent_as sessions.old items.old record { session = session.old; item = item.old }) row).lent }
{
    host_steps::step(file, sessions, items, session, item, row)
}

// Carries out rows one after another, each as `rights_step` would, with one reading of the file, up to the first that gives a number: 0, or
// the file's number, with rows or without, or 12 to 16 of that row. `done` is how many were carried out; the cells and the next
// numbers are as those rows left them.
#[unsafe(no_mangle)]
pub extern "C" fn rights_steps(
    file: &[u8],
    sessions: &mut [u64],
    items: &mut [u64],
    session: &mut u64,
    item: &mut u64,
    rows: &[u64],
    done: &mut u64,
) -> u32
    ensures value { result ≡ host_number (host_steps (reading file.now) (lent_as sessions.old items.old record { session = session.old; item = item.old }) rows.now).refusal }
    ensures item_after { lent_as sessions.new items.new record { session = session.new; item = item.new } ≡ (host_steps (reading file.now) (lent_as sessions.old items.old record { session = session.old; item = item.old }) rows.now).lent }
    ensures done_after { done.new ≡ (host_steps (reading file.now) (lent_as sessions.old items.old record { session = session.old; item = item.old }) rows.now).count }
{
    host_steps::step_all(file, sessions, items, session, item, rows, done)
}

// Replays the rows of a leak from the file's start: 0 where each is carried out and the last is a grant that fits the question, or the first of
// the file's number, 10, 15, the number of the first row that is refused, and 17. The cells hold what ran: up to 10 and 15 they are as they were.
#[unsafe(no_mangle)]
pub extern "C" fn rights_replay(
    file: &[u8],
    question: &[u8],
    rows: &[u64],
    sessions: &mut [u64],
    items: &mut [u64],
) -> u32
    ensures value { result ≡ host_number (replayed (reading file.now) question.now rows.now sessions.old items.old).refusal }
    ensures sessions_after { sessions.new ≡ (replayed (reading file.now) question.now rows.now sessions.old items.old).lent.sessions }
    ensures after { items.new ≡ (replayed (reading file.now) question.now rows.now sessions.old items.old).lent.items }
{
    host_answers::replay_leak(file, question, rows, sessions, items)
}

// Answers a question of a file: 0 with the verdict (1 safe, 2 leak), how many pairs of user and session value can be open, how many values the
// asked item can have, and how many rows the leak has, which then fill the front of `rows`, the rest as it was; or the first of the
// file's number, 9, 10 and 11, and then all four are 0, the verdict too: none. Unless it is a leak `rows` is as it was.
#[unsafe(no_mangle)]
pub extern "C" fn rights_analyse(
    file: &[u8],
    question: &[u8],
    rows: &mut [u64],
    verdict: &mut u64,
    pairs: &mut u64,
    values: &mut u64,
    count: &mut u64,
) -> u32
    ensures { Means file.now question.now rows.old rows.new record { number = result; verdict = verdict.new; pairs = pairs.new; values = values.new } count.new }
{
    host_answers::answer(file, question, rows, verdict, pairs, values, count)
}
