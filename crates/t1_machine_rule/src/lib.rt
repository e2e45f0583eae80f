//! The rule of the serial machine: what every list of slots from its start keeps. Definitions and laws
//! alone.
//!
//! `specs/Kept.antt` says what each slot keeps, `specs/Stands.antt` what follows of the machine, with
//! its parts in `specs/Parts.antt`, the coverage of its state in `specs/Covered.antt` and what of a
//! joint history holds so far in `specs/SoFar.antt`, and `specs/Ends.antt` what it comes to where no
//! slot is enabled. `specs/Words.antt` says how wide the numbers of a trace are. `specs/Laws.antt` has
//! the laws.
//!
//! `proofs/Views.antt` says which slot touches which part of a machine; `proofs/Acts.antt`,
//! `proofs/Takes.antt`, `proofs/Serving.antt` and `proofs/Admits.antt` have a lemma for each kind of
//! slot, `proofs/Fits.antt` that the parts fit, and the files behind it what that gives.
#![tactic(auto)]

pub mod laws;
