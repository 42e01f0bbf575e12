// Why a call is refused, and the number that listings show for it.

#![tactic(auto)]

mod refusal;

pub use refusal::Refusal;
