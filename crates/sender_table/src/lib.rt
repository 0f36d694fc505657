// The reader of a table of permitted senders: any bytes in; its rules, or the line that refusal 18 reports, out.
#![tactic(auto)]

ghost use Rattle.std.specs.Prelude.{◌≤◌, length};
ghost use Rattle.line.specs.Parts.{Cut};
ghost use Rattle.sender_table.specs.Table.{NamesIn, NamesAs, RuleIn, RuleAs, RulesAs, TableAs};

use coverage::Rule;
use line::Cuts;
use model::RULES_MOST;
use outcome::{Reason, Refusal};

// A rule, and where the next one begins.
#[derive(Clone, Copy)]
struct Reading {
    pub rule: Rule,
    pub next: usize,
}

// The rules of a table: so many, which stand first.
#[derive(Clone, Copy)]
pub struct Table {
    pub rules: [Rule; RULES_MOST],
    pub count: usize,
}

// Reads a table: its names line and at most 64 rules; or refusal 18 with the first bad line, 0 for the table's length.
pub fn read_table(table: &[u8]) -> Result<Table, Refusal>
    ensures { TableAs table.now result }
{
    if table.is_empty() || model::TEXT_MOST < table.len() {
        return Err(Reason::SenderTable.at(0));
    }
    let first = names_of(table).ok_or(Reason::SenderTable.at(1))?;
    rules_from(table, first)
}

// Where the first rule begins, behind the names line, which is the table's first.
fn names_of(table: &[u8]) -> Option<usize>
    ensures { NamesAs table.now result }
{
    let cuts = line::cut(table, 0)?;
    names_in(table, cuts)
}

// The three fields are the names, in their order.
fn names_in(table: &[u8], cuts: Cuts) -> Option<usize>
    requires { Cut table.now cuts }
    ensures { NamesIn table.now cuts result }
{
    if fields::is_name(table, cuts, 0, b"from")
        && fields::is_name(table, cuts, 1, b"to")
        && fields::is_name(table, cuts, 2, b"verdict")
    {
        return Some(cuts.end + 1);
    }
    None
}

// All rules from `first` on, which is behind the names.
fn rules_from(table: &[u8], first: usize) -> Result<Table, Refusal>
    requires { first ≤ length table.now }
    ensures { RulesAs table.now first result }
{
    let mut rules = [Rule {
        from: 0,
        to: 0,
        verdict: 0,
    }; RULES_MOST];
    let mut at = first;
    let mut count = 0;
    // Not a `for`: each rule says where the next begins.
    while at < table.len() {
        let refusal = Reason::SenderTable.at(count + model::FIRST_LINE);
        if RULES_MOST <= count {
            return Err(refusal);
        }
        let read = rule_at(table, at).ok_or(refusal)?;
        rules[count] = read.rule;
        at = read.next;
        count += 1;
    }
    Ok(Table { rules, count })
}

// The rule at `at`.
fn rule_at(table: &[u8], at: usize) -> Option<Reading>
    requires { at ≤ length table.now }
    ensures { RuleAs table.now at result }
{
    let cuts = line::cut(table, at)?;
    rule_in(table, cuts)
}

// The rule of three fields: two sets and a verdict.
fn rule_in(table: &[u8], cuts: Cuts) -> Option<Reading>
    requires { Cut table.now cuts }
    ensures { RuleIn table.now cuts result }
{
    let from = fields::number_up_to(table, cuts, 0, model::SET_MOST)?;
    let to = fields::number_up_to(table, cuts, 1, model::SET_MOST)?;
    let verdict = fields::number_up_to(table, cuts, 2, model::VERDICT_MOST)?;
    let rule = Rule {
        from,
        to,
        verdict: verdict as u8,
    };
    Some(Reading {
        rule,
        next: cuts.end + 1,
    })
}
