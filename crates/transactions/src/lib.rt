// The calls that begin and end a transaction, one public function each. None asks anything of its caller: each answers for every input,
// and what it leaves is equated with its definition in `store`.
#![tactic(auto)]

pub mod abort;
pub mod begin;
pub mod commit;
