// The analyser: safe or leak, for runs of any length.
#![tactic(auto)]

ghost use Rattle.std.specs.Prelude.{◌≡◌, List, ℕ, ◌^◌, ◌≤◌, ◌<◌, length};
ghost use Rattle.policy.specs.Policy.{width};
ghost use Rattle.policy.specs.Rules.{attrs_of, policy_of};
ghost use Rattle.rules.specs.Answers.{reading, rules as read};
ghost use Rattle.allowed_rows.specs.Basis.{BasisOf};
ghost use Rattle.allowed_rows.specs.Scratch.{Scratch};
ghost use Rattle.analyser.specs.Told.{told_of, rows_of};
ghost use Rattle.analyser.specs.Checks.{rows_for, starts_found, answer_by};
ghost use Rattle.analyser.specs.Means.{Means};

use allowed_rows::{Basis, basis_of};
use decision::{Decision, decide};
use policy::Rules;
use policy::shape::class_width;
use refusal::Refusal;
use replay::question::{Question, asks};
use rules::read_rules;
use search::queue::Found;

// Safe, or a leak.
#[derive(Clone, Copy, Debug, PartialEq, Eq)]
pub enum Verdict {
    Safe,
    Leak,
}

// The verdict; how many pairs of user and session value can be open; how many values the asked item can have; and the rows of the leak.
#[derive(Clone, Copy)]
pub struct Answer {
    pub verdict: Verdict,
    pub pairs: usize,
    pub values: usize,
    pub rows: usize,
}

// The values that a class of s bits has room for.
fn room(s: usize) -> usize
    requires { s ≤ 8 }
    ensures { (result ≡ 2 ^ s) × (result ≤ 256) }
{
    1usize << s
}

// The rows that a leak may need.
fn rows_needed(rules: Rules) -> usize
    ensures { result ≡ rows_for (width (attrs_of rules.classes.session)) (width (attrs_of rules.classes.item)) }
{
    let s = class_width(rules.classes.session);
    let o = class_width(rules.classes.item);
    if Question::WIDTH < s {
        return 0;
    }
    if Question::WIDTH < o {
        return 0;
    }
    let n = room(s);
    let k = room(o);
    n + k * (n + 1) + 1
}

// As many bits as each class has, or more.
fn widest(rules: Rules) -> usize
    ensures { (width (attrs_of rules.classes.user) ≤ result) × (width (attrs_of rules.classes.session) ≤ result) × (width (attrs_of rules.classes.item) ≤ result) }
{
    let u = class_width(rules.classes.user);
    let s = class_width(rules.classes.session);
    let o = class_width(rules.classes.item);
    u.max(s).max(o)
}

// Whether the starting sessions could have been brought about by their users, whose sessions' values were searched.
fn starts_brought(rules: &Rules, users: &[Found; 16]) -> bool
    ensures { result ≡ starts_found rules.now users.now }
{
    user_results::all_brought(users, &rules.sessions)
}

// The answer to a question that was decided.
fn answer_of(d: Decision) -> Answer
    ensures { result ≡ answer_by d }
{
    let (verdict, rows) = match d.leak {
        Some(rows) => (Verdict::Leak, rows),
        None => (Verdict::Safe, 0),
    };
    Answer {
        verdict,
        pairs: d.pairs,
        values: d.values,
        rows,
    }
}

// Answers a question of a file that was read, by the first of 9, 10, 11, or decides it. Formulas are prepared in `area`.
fn answer_in(
    file: &[u8],
    rules: &Rules,
    question: &[u8],
    rows: &mut [u64],
    area: &mut [u64],
) -> Result<Answer, Refusal>
    requires file_value { reading file.now ≡ read (policy_of rules.now) }
    requires scratch { (b : Basis) → BasisOf rules.now b → Scratch b area.old }
    ensures { Means file.now question.now rows.old rows.new (told_of result) (rows_of result) }
{
    let basis = basis_of(rules);
    let users = user_searches::search_users(&basis, area);
    if !starts_brought(rules, &users) {
        return Err(Refusal::Start);
    }
    if !asks(*rules, question) {
        return Err(Refusal::Question);
    }
    if rows.len() < rows_needed(*rules) {
        return Err(Refusal::Room);
    }
    let q = Question::of(question);
    let decision = decide(rules, &users, q, rows, &basis, area);
    Ok(answer_of(decision))
}

// Answers a question of a file: refused by the first of the file's number, 9, 10, 11, and then there is no verdict, count or row; safe exactly when no run
// of any length grants what is asked; or a leak, whose rows fill the front of `rows`. Unless it is a leak `rows` is as it was.
pub fn analyse(file: &[u8], question: &[u8], rows: &mut [u64]) -> Result<Answer, Refusal>
    ensures { Means file.now question.now rows.old rows.new (told_of result) (rows_of result) }
{
    let rules = read_rules(file).answer?;
    let w = widest(rules);
    if w <= 2 {
        let mut area = [0u64; 1796];
        return answer_in(file, &rules, question, rows, &mut area);
    }
    if w <= 5 {
        let mut area = [0u64; 8964];
        return answer_in(file, &rules, question, rows, &mut area);
    }
    let mut area = [0u64; 66308];
    answer_in(file, &rules, question, rows, &mut area)
}
