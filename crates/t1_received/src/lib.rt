//! What a core sent and received: laws of its requests and packets over their definitions alone.
//!
//! `specs/Requests.antt` sorts the requests of a core by destination, and by strand and class;
//! `specs/Laws.antt` says how proper packets stay proper as a core goes on, how its caches by
//! packets go on, and which request a reply answers.
#![tactic(auto)]

pub mod laws;
