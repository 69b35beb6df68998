ghost use Rattle.std.specs.Prelude.{◌≡◌, ◌∷◌, [], ◌-◌, ◌<◌, ◌≤◌, ◌^◌, length, pos, IsTrue};
ghost use Rattle.table_model.specs.Program.{number_in, is_number, row_of_number, next_in, gain_in};
ghost use Rattle.table_model.specs.Table.{layer_at, transition_at};

use crate::layer::Layer;
use crate::table::TableModel;
use crate::transition::Transition;
use dp_model::DpModel;

/// Writes a state.
fn write(out: &mut [i64], state: u32)
    requires { length out.old ≡ 1 }
    ensures { out.new ≡ row_of_number state }
{
    out.copy_from_slice(&[i64::from(state)]);
}

/// Whether a row is the number of one of this many states.
fn is_number(states: u32, s: &[i64]) -> bool
    requires { length s.now ≡ 1 }
    ensures { result ≡ is_number states s.now }
{
    0 <= s[0] && s[0] < i64::from(states)
}

impl TableModel {
    /// A layer.
    pub(crate) fn layer(&self, k: usize) -> &Layer
        requires { k ≤ length self.now.layers.items - 1 }
        ensures { result.now ≡ layer_at self.now.layers.items k }
    {
        &self.layers[k]
    }

    /// The number of a state.
    fn number(&self, k: usize, s: &[i64]) -> usize
        requires { IsTrue (is_number (layer_at self.now.layers.items k).states s.now) }
        ensures { result ≡ number_in s.now }
    {
        s[0] as usize
    }

    /// What a decision makes of a state, where it is allowed.
    fn transition(&self, k: usize, s: &[i64], d: u32) -> Option<Transition>
        requires layer { k ≤ length self.now.layers.items - 1 }
        requires state { IsTrue (is_number (layer_at self.now.layers.items k).states s.now) }
        ensures { result ≡ transition_at (layer_at self.now.layers.items k) (number_in s.now) d }
    {
        self.layer(k).transition(self.number(k, s), d as usize)
    }
}

#[tactic(auto, using(crate::specs::Laws::Coded::round_trip))]
impl DpModel for TableModel {
    ghost use Rattle.table_model.specs.Numbers.{numbers_of, table_spelled};
    ghost use Rattle.table_model.specs.Program.{program_of};
    ghost use Rattle.table_model.specs.Shown.{table_shown};
    ghost use Rattle.table_model.specs.Laws.Program.{lawful_numbers, chained_numbers};

    ghost numbers = { λ m. numbers_of (table_shown m) };

    ghost meaning = { λ numbers. program_of (table_spelled numbers) };

    ghost lawful = { λ m. lawful_numbers (table_shown m) (record { root_value = m.small; some = m.some; few = m.few; layers = m.layered }) m.tested };

    ghost chained = { λ m. chained_numbers (table_shown m) (record { root_value = m.small; some = m.some; few = m.few; layers = m.layered }) m.tested };

    fn vars(&self) -> usize {
        self.layers.len() - 1
    }

    fn words(&self) -> usize {
        1
    }

    fn choices(&self, k: usize) -> u32 {
        self.layer(k).choices
    }

    fn root(&self, out: &mut [i64]) {
        write(out, 0);
    }

    fn root_value(&self) -> i64 {
        self.root_value
    }

    fn allowed(&self, k: usize, s: &[i64], d: u32) -> bool {
        self.transition(k, s, d).is_some()
    }

    fn step(&self, k: usize, s: &[i64], d: u32, out: &mut [i64]) {
        let next = match self.transition(k, s, d) {
            Some(taken) => taken.next,
            None => 0,
        };
        write(out, next);
    }

    fn gain(&self, k: usize, s: &[i64], d: u32) -> i64 {
        match self.transition(k, s, d) {
            Some(taken) => taken.gain,
            None => 0,
        }
    }

    fn merge_into(&self, k: usize, acc: &mut [i64], s: &[i64]) {
        let merged = self.layer(k).merged(self.number(k, acc), self.number(k, s));
        write(acc, merged);
    }

    fn gap(&self, k: usize, a: &[i64], s: &[i64]) -> Option<i64> {
        self.layer(k).gap(self.number(k, a), self.number(k, s))
    }

    fn rough(&self, k: usize, s: &[i64]) -> Option<i64> {
        self.layer(k).rough(self.number(k, s))
    }

    fn rank(&self, _k: usize, _s: &[i64]) -> i64 {
        0
    }

    fn bucket(&self, _k: usize, _s: &[i64]) -> u64 {
        0
    }

    fn hash(&self, k: usize, s: &[i64]) -> u64 {
        self.number(k, s) as u64
    }

    fn is_state(&self, k: usize, s: &[i64]) -> bool {
        is_number(self.layer(k).states, s)
    }
}
