// The calls that begin with a medium alone, one public function each. None asks anything of its caller: each answers for
// every input, and what it leaves is equated with its definition in `store`.
#![tactic(auto)]

pub mod format;
pub mod open;
