// The mnemonics, and the forms of each.
ghost use Rattle.std.specs.Prelude.{◌≡◌, option_map};
ghost use Rattle.t1_form.specs.Names.{named, seen_rows, condition_names, register_condition_names};
ghost use Rattle.t1_form.specs.Mnemonics.{access_names, other_names, shape_of, access_form, branch_condition, branch_of, trap_of, move_of, register_branch_of, register_move_of, without_a, alternate_of, forms_of};

use crate::form::{Form, Forms};
use crate::names::{after, condition, find, register_condition};
use crate::slot::Shape;
use crate::template::{Access, Space, Template};
use t1_insn::{AluOp, Insn, LoadKind, ShiftOp, Src, StoreKind};

// One form, or two that are tried in their order.
macro_rules! forms {
    ($shape:ident $template:expr) => {
        Forms::One(Form { shape: Shape::$shape, template: $template })
    };
    ($first:ident $template:expr, $second:ident $other:expr) => {
        Forms::Two(
            Form { shape: Shape::$first, template: $template },
            Form { shape: Shape::$second, template: $other },
        )
    };
}

// Rows of a mnemonic and its forms, each by the shape of its operands and its template.
macro_rules! rows {
    ($($name:literal $($shape:ident $template:expr),+;)*) => {
        &[$(($name, forms!($($shape $template),+))),*]
    };
}

fn access_rows() -> &'static [(&'static [u8], Access)]
    ensures { seen_rows result.now ≡ access_names }
{
    &[
        (b"lduw", Access::Load(LoadKind::Uw)),
        (b"ld", Access::Load(LoadKind::Uw)),
        (b"ldub", Access::Load(LoadKind::Ub)),
        (b"lduh", Access::Load(LoadKind::Uh)),
        (b"ldtw", Access::Load(LoadKind::Tw)),
        (b"ldd", Access::Load(LoadKind::Tw)),
        (b"ldsw", Access::Load(LoadKind::Sw)),
        (b"ldsb", Access::Load(LoadKind::Sb)),
        (b"ldsh", Access::Load(LoadKind::Sh)),
        (b"ldx", Access::Load(LoadKind::X)),
        (b"stw", Access::Store(StoreKind::W)),
        (b"st", Access::Store(StoreKind::W)),
        (b"stb", Access::Store(StoreKind::B)),
        (b"sth", Access::Store(StoreKind::H)),
        (b"sttw", Access::Store(StoreKind::Tw)),
        (b"std", Access::Store(StoreKind::Tw)),
        (b"stx", Access::Store(StoreKind::X)),
        (b"ldstub", Access::Ldstub),
        (b"swap", Access::Swap),
    ]
}

/// An access to memory.
fn access(name: &[u8]) -> Option<Access>
    ensures { result ≡ named name.now access_names }
{
    find(name, access_rows())
}

fn other_rows() -> &'static [(&'static [u8], Forms)]
    ensures { seen_rows result.now ≡ other_names }
{
    rows! {
        b"add" Three Template::Alu { op: AluOp::Add, cc: false };
        b"and" Three Template::Alu { op: AluOp::And, cc: false };
        b"or" Three Template::Alu { op: AluOp::Or, cc: false };
        b"xor" Three Template::Alu { op: AluOp::Xor, cc: false };
        b"sub" Three Template::Alu { op: AluOp::Sub, cc: false };
        b"andn" Three Template::Alu { op: AluOp::Andn, cc: false };
        b"orn" Three Template::Alu { op: AluOp::Orn, cc: false };
        b"xnor" Three Template::Alu { op: AluOp::Xnor, cc: false };
        b"sethi" NumberRd Template::Sethi;
        b"set" NumberRd Template::Set;
        b"call" Target Template::Call;
        b"nop" Nothing Template::Fixed(Insn::Sethi { rd: 0, imm: 0 });
        b"mov" OperandRd Template::Alu { op: AluOp::Or, cc: false };
        b"cmp" Compare Template::Alu { op: AluOp::Sub, cc: true };
        b"addc" Three Template::Alu { op: AluOp::Addc, cc: false };
        b"mulx" Three Template::Alu { op: AluOp::Mulx, cc: false };
        b"umul" Three Template::Alu { op: AluOp::Umul, cc: false };
        b"smul" Three Template::Alu { op: AluOp::Smul, cc: false };
        b"subc" Three Template::Alu { op: AluOp::Subc, cc: false };
        b"udivx" Three Template::Alu { op: AluOp::Udivx, cc: false };
        b"udiv" Three Template::Alu { op: AluOp::Udiv, cc: false };
        b"sdiv" Three Template::Alu { op: AluOp::Sdiv, cc: false };
        b"sdivx" Three Template::Alu { op: AluOp::Sdivx, cc: false };
        b"addcc" Three Template::Alu { op: AluOp::Add, cc: true };
        b"andcc" Three Template::Alu { op: AluOp::And, cc: true };
        b"orcc" Three Template::Alu { op: AluOp::Or, cc: true };
        b"xorcc" Three Template::Alu { op: AluOp::Xor, cc: true };
        b"subcc" Three Template::Alu { op: AluOp::Sub, cc: true };
        b"andncc" Three Template::Alu { op: AluOp::Andn, cc: true };
        b"orncc" Three Template::Alu { op: AluOp::Orn, cc: true };
        b"xnorcc" Three Template::Alu { op: AluOp::Xnor, cc: true };
        b"addccc" Three Template::Alu { op: AluOp::Addc, cc: true };
        b"umulcc" Three Template::Alu { op: AluOp::Umul, cc: true };
        b"smulcc" Three Template::Alu { op: AluOp::Smul, cc: true };
        b"subccc" Three Template::Alu { op: AluOp::Subc, cc: true };
        b"udivcc" Three Template::Alu { op: AluOp::Udiv, cc: true };
        b"sdivcc" Three Template::Alu { op: AluOp::Sdiv, cc: true };
        b"taddcc" Three Template::Alu { op: AluOp::Taddcc, cc: true };
        b"tsubcc" Three Template::Alu { op: AluOp::Tsubcc, cc: true };
        b"taddcctv" Three Template::Alu { op: AluOp::TaddccTv, cc: true };
        b"tsubcctv" Three Template::Alu { op: AluOp::TsubccTv, cc: true };
        b"mulscc" Three Template::Alu { op: AluOp::Mulscc, cc: true };
        b"sll" Three Template::Shift { op: ShiftOp::Sll, wide: false };
        b"srl" Three Template::Shift { op: ShiftOp::Srl, wide: false };
        b"sra" Three Template::Shift { op: ShiftOp::Sra, wide: false };
        b"sllx" Three Template::Shift { op: ShiftOp::Sll, wide: true };
        b"srlx" Three Template::Shift { op: ShiftOp::Srl, wide: true };
        b"srax" Three Template::Shift { op: ShiftOp::Sra, wide: true };
        b"jmpl" JumpRd Template::Jmpl;
        b"jmp" Jump Template::Jmpl;
        b"return" Jump Template::Return;
        b"flush" Jump Template::Flush;
        b"save" Three Template::Save, Nothing Template::Save;
        b"restore" Three Template::Restore, Nothing Template::Restore;
        b"ret" Nothing Template::Fixed(Insn::Jmpl { rd: 0, rs1: 31, src: Src::Imm(8) });
        b"retl" Nothing Template::Fixed(Insn::Jmpl { rd: 0, rs1: 15, src: Src::Imm(8) });
        b"flushw" Nothing Template::Fixed(Insn::Flushw);
        b"saved" Nothing Template::Fixed(Insn::Saved);
        b"restored" Nothing Template::Fixed(Insn::Restored);
        b"done" Nothing Template::Fixed(Insn::Done);
        b"retry" Nothing Template::Fixed(Insn::Retry);
        b"stbar" Nothing Template::Fixed(Insn::Stbar);
        b"tst" Test Template::Alu { op: AluOp::Or, cc: true };
        b"clr" OnlyRd Template::Alu { op: AluOp::Or, cc: false };
        b"inc" Step Template::Alu { op: AluOp::Add, cc: false };
        b"dec" Step Template::Alu { op: AluOp::Sub, cc: false };
        b"not" Turn Template::Alu { op: AluOp::Xnor, cc: false };
        b"neg" Negate Template::Alu { op: AluOp::Sub, cc: false };
        b"membar" Barrier Template::Membar, BarrierNumber Template::Membar;
        b"rd" ReadState Template::ReadAsr;
        b"wr" WriteState Template::WriteAsr;
        b"rdpr" ReadPrivileged Template::ReadPr;
        b"wrpr" WritePrivileged Template::WritePr;
        b"prefetch" Fetch Template::Prefetch(Space::Plain);
        b"prefetcha" FetchNamed Template::Prefetch(Space::Named), FetchAsi Template::Prefetch(Space::Asi);
        b"cas" Compared Template::Cas { wide: false, space: Space::Named };
        b"casx" Compared Template::Cas { wide: true, space: Space::Named };
        b"casa" ComparedNamed Template::Cas { wide: false, space: Space::Named }, ComparedAsi Template::Cas { wide: false, space: Space::Asi };
        b"casxa" ComparedNamed Template::Cas { wide: true, space: Space::Named }, ComparedAsi Template::Cas { wide: true, space: Space::Asi };
        b"illtrap" Number Template::Illtrap;
    }
}

/// The forms of another mnemonic.
fn other(name: &[u8]) -> Option<Forms>
    ensures { result ≡ named name.now other_names }
{
    find(name, other_rows())
}

fn access_shape(access: Access, space: Space) -> Shape
    ensures { result ≡ shape_of access space }
{
    match (access, space) {
        (Access::Store(_), Space::Plain) => Shape::Store,
        (Access::Store(_), Space::Named) => Shape::StoreNamed,
        (Access::Store(_), Space::Asi) => Shape::StoreAsi,
        (_, Space::Plain) => Shape::Load,
        (_, Space::Named) => Shape::LoadNamed,
        (_, Space::Asi) => Shape::LoadAsi,
    }
}

fn form_of_access(access: Access, space: Space) -> Form
    ensures { result ≡ access_form access space }
{
    Form {
        shape: access_shape(access, space),
        template: Template::Access(access, space),
    }
}

#[tactic(auto, unfolding(crate::specs::Mnemonics::branch_condition))]
fn condition_or_always(name: &[u8]) -> Option<u8>
    ensures { result ≡ branch_condition name.now }
{
    match name.split_first() {
        None => Some(8),
        Some(_) => condition(name),
    }
}

#[tactic(auto, unfolding(crate::specs::Mnemonics::branch_of))]
fn branch(name: &[u8]) -> Option<u8>
    ensures { result ≡ branch_of name.now }
{
    condition_or_always(after(b"b", name)?)
}

#[tactic(auto, unfolding(crate::specs::Mnemonics::trap_of))]
fn trap(name: &[u8]) -> Option<u8>
    ensures { result ≡ trap_of name.now }
{
    condition(after(b"t", name)?)
}

#[tactic(auto, unfolding(crate::specs::Mnemonics::move_of))]
fn moved(name: &[u8]) -> Option<u8>
    ensures { result ≡ move_of name.now }
{
    condition(after(b"mov", name)?)
}

#[tactic(auto, unfolding(crate::specs::Mnemonics::register_branch_of))]
fn register_branch(name: &[u8]) -> Option<u8>
    ensures { result ≡ register_branch_of name.now }
{
    register_condition(after(b"br", name)?)
}

#[tactic(auto, unfolding(crate::specs::Mnemonics::register_move_of))]
fn register_move(name: &[u8]) -> Option<u8>
    ensures { result ≡ register_move_of name.now }
{
    register_condition(after(b"movr", name)?)
}

#[tactic(auto, unfolding(crate::specs::Mnemonics::without_a))]
fn plain_name(name: &[u8]) -> Option<&[u8]>
    ensures { option_map (λ r. r.now) result ≡ without_a name.now }
{
    let n = name.len();
    if n > 0 && name[n - 1] == b'a' {
        Some(name.split_at(n - 1).0)
    } else {
        None
    }
}

#[tactic(auto, unfolding(crate::specs::Mnemonics::alternate_of))]
fn alternate(name: &[u8]) -> Option<Access>
    ensures { result ≡ alternate_of name.now }
{
    access(plain_name(name)?)
}

/// The forms of a mnemonic.
#[tactic(auto, unfolding(crate::specs::Mnemonics::forms_of))]
pub fn forms_of(name: &[u8]) -> Option<Forms>
    ensures { result ≡ forms_of name.now }
{
    if let Some(c) = branch(name) {
        let first = Form {
            shape: Shape::BranchIcc,
            template: Template::Bicc(c),
        };
        let second = Form {
            shape: Shape::BranchCodes,
            template: Template::Bpcc(c),
        };
        return Some(Forms::Two(first, second));
    }
    if let Some(a) = access(name) {
        return Some(Forms::One(form_of_access(a, Space::Plain)));
    }
    if let Some(forms) = other(name) {
        return Some(forms);
    }
    if let Some(a) = alternate(name) {
        return Some(Forms::Two(
            form_of_access(a, Space::Named),
            form_of_access(a, Space::Asi),
        ));
    }
    if let Some(c) = trap(name) {
        let first = Form {
            shape: Shape::TrapIcc,
            template: Template::Trap(c),
        };
        let second = Form {
            shape: Shape::TrapCodes,
            template: Template::Trap(c),
        };
        return Some(Forms::Two(first, second));
    }
    if let Some(c) = moved(name) {
        return Some(Forms::One(Form {
            shape: Shape::MoveCodes,
            template: Template::Movcc(c),
        }));
    }
    if let Some(c) = register_branch(name) {
        return Some(Forms::One(Form {
            shape: Shape::BranchRegister,
            template: Template::Bpr(c),
        }));
    }
    if let Some(c) = register_move(name) {
        return Some(Forms::One(Form {
            shape: Shape::Three,
            template: Template::Movr(c),
        }));
    }
    None
}
