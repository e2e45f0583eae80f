// The second pass: bytes.
ghost use Rattle.std.specs.Prelude.{◌≡◌, ◌≤◌, length, replicate, IfOk, OnOk};
ghost use Rattle.t1_expr.specs.Symbols.{env_of};
ghost use Rattle.t1_stmt.specs.Faults.{Answers};
ghost use Rattle.t1_stmt.specs.Lines.{seen_body, lines_of};
ghost use Rattle.t1_asm.specs.Passes.{location, appended, opened, kept, some_missing, number_onto, numbers_onto, words_onto, written, second_step, pass, first_out, Ends};

use crate::failure::Failure;
use crate::layout::pad;
use std::alloc::{AllocError, Global};
use std::collections::BTreeMap;
use std::marker::Model;
use t1_elf::{Bytes, Chunk, Listed};
use t1_form::directive::Width;
use t1_lex::{Token, line_run};
use t1_stmt::fault::{Fault, Halt};
use t1_stmt::line::{after_labels, lexed, read_body};
use t1_stmt::statement::{Body, Statement};
use t1_stmt::templates::instruction_words;

/// The chunks that are done, and the one that is open.
#[derive(Drop)]
pub struct Output {
    done: Listed<Chunk>,
    addr: u64,
    bytes: Vec<u8>,
}

impl Model for Output {
    ghost use Rattle.t1_asm.specs.Passes.{Out};

    ghost Value = { Out };

    ghost view = { λ o. record { done = o.done; addr = o.addr; bytes = o.bytes.items } };
}

impl Output {
    pub fn new(alloc: Global) -> Output
        ensures { result ≡ first_out }
    {
        Output {
            done: Listed::new(alloc),
            addr: 0,
            bytes: Vec::new(alloc),
        }
    }

    fn location(&self) -> u64
        ensures { result ≡ location self.now }
    {
        self.addr.wrapping_add(self.bytes.len() as u64)
    }

    fn append(&mut self, bytes: &[u8]) -> Result<(), AllocError>
        ensures { OnOk result (self.new ≡ appended self.old bytes.now) }
    {
        self.bytes.extend_from_slice(bytes)?;
        Ok(())
    }

    #[tactic(auto, using(crate::proofs::Chunks::one_zero, crate::proofs::Chunks::no_zeros))]
    fn zeros(&mut self, count: u64) -> Result<(), AllocError>
        ensures { OnOk result (self.new ≡ appended self.old (replicate count 0)) }
    {
        let mut left = count;
        while left > 0 {
            self.append(&[0])?;
            left -= 1;
        }
        Ok(())
    }

    /// The chunks, with the open one where it has bytes.
    #[tactic(auto, using(crate::proofs::Chunks::kept_some, crate::proofs::Chunks::kept_none))]
    pub fn finish(self) -> Result<Listed<Chunk>, AllocError>
        ensures { IfOk result (λ chunks. chunks ≡ kept self.done self.addr self.bytes) }
    {
        let Output {
            mut done,
            addr,
            bytes,
        } = self;
        if bytes.len() > 0 {
            done.push(Chunk {
                addr,
                bytes: Bytes::from_vec(bytes),
                zeros: 0,
            })?;
        }
        Ok(done)
    }

    fn open(self, alloc: Global, addr: u64) -> Result<Output, AllocError>
        ensures { IfOk result (λ o. o ≡ opened self addr) }
    {
        let done = self.finish()?;
        Ok(Output {
            done,
            addr,
            bytes: Vec::new(alloc),
        })
    }
}

#[tactic(auto, unfolding(crate::specs::Passes::some_missing))]
fn missing(values: &[Option<u64>]) -> bool
    ensures { result ≡ some_missing values.now }
{
    let mut rest = values;
    loop {
        let Some((first, more)) = rest.split_first() else {
            return false;
        };
        if first.is_none() {
            return true;
        }
        rest = more;
    }
}

/// One number.
#[tactic(auto, unfolding(crate::specs::Passes::number_onto, crate::specs::Passes::fitted))]
fn number(out: &mut Output, width: Width, value: Option<u64>) -> Result<(), Halt>
    ensures { Answers (λ u. out.new) result (number_onto width value out.old) }
{
    let Some(v) = value else {
        return Err(Halt::Fault(Fault::MissingLabel));
    };
    match width {
        Width::Byte => {
            if v < 1 << 8 || v >= u64::MAX - ((1 << 7) - 1) {
                out.append(&((v % (1 << 8)) as u8).to_be_bytes())?;
                return Ok(());
            }
        }
        Width::Half => {
            if v < 1 << 16 || v >= u64::MAX - ((1 << 15) - 1) {
                out.append(&((v % (1 << 16)) as u16).to_be_bytes())?;
                return Ok(());
            }
        }
        Width::Word => {
            if v < 1 << 32 || v >= u64::MAX - ((1 << 31) - 1) {
                out.append(&((v % (1 << 32)) as u32).to_be_bytes())?;
                return Ok(());
            }
        }
        Width::Xword => {
            out.append(&v.to_be_bytes())?;
            return Ok(());
        }
    }
    Err(Halt::Fault(Fault::OutOfRange))
}

/// One number after another.
#[tactic(auto, unfolding(crate::specs::Passes::numbers_onto))]
fn numbers(out: &mut Output, width: Width, values: &[Option<u64>]) -> Result<(), Halt>
    ensures { Answers (λ u. out.new) result (numbers_onto width values.now out.old) }
{
    let mut rest = values;
    loop {
        let Some((first, more)) = rest.split_first() else {
            return Ok(());
        };
        number(out, width, *first)?;
        rest = more;
    }
}

fn words(out: &mut Output, first: u32, second: Option<u32>) -> Result<(), AllocError>
    ensures { OnOk result (out.new ≡ words_onto (first, second) out.old) }
{
    out.append(&first.to_be_bytes())?;
    if let Some(word) = second {
        out.append(&word.to_be_bytes())?;
    }
    Ok(())
}

/// The bytes of a line.
#[tactic(auto, unfolding(crate::specs::Passes::written))]
fn write(alloc: Global, out: Output, body: Body<'_>) -> Result<Output, Halt>
    ensures { Answers (λ o. o) result (written out (seen_body body.entry)) }
{
    let mut out = out;
    match body {
        Body::Holds(Statement::Org(v)) => Ok(out.open(alloc, v.unwrap_or(0))?),
        Body::Holds(Statement::Skip(v)) => {
            out.zeros(v.unwrap_or(0))?;
            Ok(out)
        }
        Body::Holds(Statement::Align(v)) => {
            out.zeros(pad(out.location(), v.unwrap_or(0)))?;
            Ok(out)
        }
        Body::Holds(Statement::Numbers(width, values)) => {
            if missing(values.as_slice()) {
                return Err(Halt::Fault(Fault::MissingLabel));
            }
            numbers(&mut out, width, values.as_slice())?;
            Ok(out)
        }
        Body::Holds(Statement::Text(bytes)) => {
            out.append(bytes.as_slice())?;
            Ok(out)
        }
        Body::Holds(Statement::Insn(insn)) => match instruction_words(out.location(), insn) {
            Ok((first, second)) => {
                words(&mut out, first, second)?;
                Ok(out)
            }
            Err(fault) => Err(Halt::Fault(fault)),
        },
        _ => Ok(out),
    }
}

/// What a line leads to.
#[tactic(auto, unfolding(crate::specs::Passes::second_step, t1_stmt::specs::Lines::line_of, t1_stmt::specs::Lines::read_words))]
fn second_line(
    alloc: Global,
    symbols: &BTreeMap<&[u8], u64>,
    tokens: &mut Vec<Token>,
    number: u32,
    out: Output,
    line: &[u8],
) -> Result<Output, Halt>
    requires { length line.now ≤ 67108864 }
    ensures { Answers (λ o. o) result (second_step (env_of symbols.now) number out line.now) }
{
    lexed(tokens, line)?;
    let here = out.location();
    let body = read_body(
        alloc,
        symbols,
        here,
        line,
        after_labels(line, tokens.as_slice()),
    )?;
    write(alloc, out, body)
}

/// The bytes of all lines, or the first line at fault.
pub fn second_pass(
    alloc: Global,
    symbols: &BTreeMap<&[u8], u64>,
    text: &[u8],
) -> Result<Output, Failure>
    requires { length text.now ≤ 67108864 }
    ensures { Ends (λ o. o) result (pass (second_step (env_of symbols.now)) 1 first_out (lines_of text.now)) }
{
    let mut out = Output::new(alloc);
    let mut tokens = Vec::new(alloc);
    let mut rest = text;
    let mut number = 1u32;
    while rest.len() > 0 {
        let (line, more) = rest.split_at(line_run(rest));
        match second_line(alloc, symbols, &mut tokens, number, out, line) {
            Ok(next) => out = next,
            Err(halt) => return Err(Failure { line: number, halt }),
        }
        number += 1;
        rest = more.split_at(more.len().min(1)).1;
    }
    Ok(out)
}
