//! A log says all of its report: no two well-formed reports have one text. A law about definitions alone.
//!
//! `t1_log::print` writes the text of a report, and `t1_read::read_log` reads it. `specs/Laws.antt` has
//! the law: two well-formed reports of one text, whose memories and consoles hold bytes, are one.
//!
//! The text is cut from the left, in one way: `proofs/Fields.antt` cuts words, numbers and digits,
//! `proofs/Lists.antt` lines that are told from what follows them, `proofs/Accesses.antt`,
//! `proofs/Items.antt`, `proofs/Strands.antt` and `proofs/Commits.antt` the lines of each part,
//! `proofs/Bytes.antt` and `proofs/Images.antt` the console and the memory, and `proofs/Reports.antt`
//! goes through the parts in order.
#![tactic(auto)]

pub mod laws;
