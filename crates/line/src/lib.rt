// What drives the RxD pin of a stand-in and hears its TxD pin.

#![tactic(auto)]

mod loopback;
mod partner;
mod recorded;

pub use loopback::Loopback;
pub use partner::Partner;
pub use recorded::Recorded;
