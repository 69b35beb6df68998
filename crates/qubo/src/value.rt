//! The problem's own words: a 0 or a 1 for each variable, and the sum of the lines whose variables are 1.

ghost use Rattle.std.specs.Prelude.{◌≡◌, ◌≤◌, ◌^◌, true, length};
ghost use Rattle.std.specs.List.{list_all};
ghost use Rattle.dp_model.specs.Solution.{SolutionGives};
ghost use Rattle.pair_rows.specs.Program.{program_of};
ghost use Rattle.qubo.specs.OwnWords.{line_value, lines_value, own_value};
ghost use Rattle.qubo.specs.Program.{rows_in};
ghost use Rattle.qubo.specs.Quadratic.{is_line};
ghost use Rattle.qubo.specs.Shown.{instance_in};

use crate::instance::Qubo;
use crate::line::Line;
use pair_problem::are_binary;

/// The sum of the lines both of whose variables are 1, where the decisions are a 0 or a 1 for each variable. `None` exactly where they
/// are not. Such decisions are the feasible solutions of the program, with this value.
pub fn value_of(model: &Qubo, decisions: &[u32]) -> Option<i64>
    ensures own_words { result ≡ own_value (instance_in model.now) decisions.now }
    ensures solution { SolutionGives (program_of (rows_in (instance_in model.now))) decisions.now result }
{
    sum_where_one(model, decisions)
}

/// The sum of the lines, where the decisions are a 0 or a 1 for each variable.
fn sum_where_one(model: &Qubo, decisions: &[u32]) -> Option<i64>
    ensures { result ≡ own_value (instance_in model.now) decisions.now }
{
    if decisions.len() == model.variables && are_binary(decisions) {
        Some(lines_value(&model.lines, decisions))
    } else {
        None
    }
}

/// The sum of the lines.
fn lines_value(lines: &[Line], decisions: &[u32]) -> i64
    requires count { length lines.now ≤ 2 ^ 20 }
    requires each { list_all (is_line (length decisions.now)) lines.now ≡ true }
    ensures { result ≡ lines_value decisions.now lines.now }
{
    let mut total = 0;
    for line in lines {
        total += line_value(*line, decisions);
    }
    total
}

/// The weight of a line, where both of its variables are 1.
fn line_value(line: Line, decisions: &[u32]) -> i64
    requires { is_line (length decisions.now) line ≡ true }
    ensures { result ≡ line_value decisions.now line }
{
    if decisions[line.first as usize] == 1 && decisions[line.second as usize] == 1 {
        line.weight
    } else {
        0
    }
}
