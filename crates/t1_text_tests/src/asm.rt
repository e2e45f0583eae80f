//! Lines and the words that they make, and texts and their first fault.

use std::alloc::Global;
use std::test::Fail;
use t1_asm::{AsmError, AsmKind, assemble};
use t1_elf::save;

// Each mnemonic and each form of its operands, and the words that it makes. They are those of GNU
// `as`, but for `set`, which it shortens, and `ta %g1` and `tst %g3`, where it takes the register as
// rs1.
const LINES: &str = "\
add %g0, %o3, %l5 = aa00000b
and %g1, %o4, %l6 = ac08400c
or %g2, %o5, %l7 = ae10800d
xor %g3, %o6, %l0 = a018c00e
sub %g4, %o7, %l1 = a221000f
andn %g5, %o0, %l2 = a4294008
orn %g6, %o1, %l3 = a6318009
xnor %g7, %o2, %l4 = a839c00a
addc %g0, %o3, %l5 = aa40000b
mulx %g1, %o4, %l6 = ac48400c
umul %g2, %o5, %l7 = ae50800d
smul %g3, %o6, %l0 = a058c00e
subc %g4, %o7, %l1 = a261000f
udivx %g5, %o0, %l2 = a4694008
udiv %g6, %o1, %l3 = a6718009
sdiv %g7, %o2, %l4 = a879c00a
sdivx %g0, %o3, %l5 = ab68000b
addcc %g1, %o4, %l6 = ac80400c
andcc %g2, %o5, %l7 = ae88800d
orcc %g3, %o6, %l0 = a090c00e
xorcc %g4, %o7, %l1 = a299000f
subcc %g5, %o0, %l2 = a4a14008
andncc %g6, %o1, %l3 = a6a98009
orncc %g7, %o2, %l4 = a8b1c00a
xnorcc %g0, %o3, %l5 = aab8000b
addccc %g1, %o4, %l6 = acc0400c
umulcc %g2, %o5, %l7 = aed0800d
smulcc %g3, %o6, %l0 = a0d8c00e
subccc %g4, %o7, %l1 = a2e1000f
udivcc %g5, %o0, %l2 = a4f14008
sdivcc %g6, %o1, %l3 = a6f98009
taddcc %g7, %o2, %l4 = a901c00a
tsubcc %g0, %o3, %l5 = ab08000b
taddcctv %g1, %o4, %l6 = ad10400c
tsubcctv %g2, %o5, %l7 = af18800d
mulscc %g3, %o6, %l0 = a120c00e
sll %i1, 31, %i2 = b52e601f
srl %i1, 31, %i2 = b536601f
sra %i1, 31, %i2 = b53e601f
sllx %i1, 63, %i2 = b52e703f
srlx %i1, 63, %i2 = b536703f
srax %i1, 63, %i2 = b53e703f
sll %i1, %i3, %i2 = b52e401b
srax %g1, %g2, %g3 = 87385002
add %g1, 1, %g2 = 84006001
add %g1, 4095, %g2 = 84006fff
add %g1, -4096, %g2 = 84007000
add %g1, %lo(0x12345678), %g2 = 84006278
sub %sp, 176, %fp = bc23a0b0
or %i7, 0, %o0 = 9017e000
save %sp, -96, %sp = 9de3bfa0
save %g1, %g2, %g3 = 87e04002
restore %o0, 1, %o1 = 93ea2001
restore %g0, %i0, %o0 = 91e80018
save = 81e00000
restore = 81e80000
sethi %hi(0x12345400), %g1 = 03048d15
sethi 4194303, %g7 = 0f3fffff
sethi 298261, %g1 = 03048d15
bn .+8 = 00800002
be .+8 = 02800002
ble .+8 = 04800002
bl .+8 = 06800002
bleu .+8 = 08800002
bcs .+8 = 0a800002
bneg .+8 = 0c800002
bvs .+8 = 0e800002
ba .+8 = 10800002
bne .+8 = 12800002
bg .+8 = 14800002
bge .+8 = 16800002
bgu .+8 = 18800002
bcc .+8 = 1a800002
bpos .+8 = 1c800002
bvc .+8 = 1e800002
b .-8 = 10bffffe
ba,a . = 30800000
bne,a .+16 = 32800004
b,a . = 30800000
bn %xcc, .+8 = 00680002
be %xcc, .+8 = 02680002
ble %xcc, .+8 = 04680002
bl %xcc, .+8 = 06680002
bleu %xcc, .+8 = 08680002
bcs %xcc, .+8 = 0a680002
bneg %xcc, .+8 = 0c680002
bvs %xcc, .+8 = 0e680002
ba %xcc, .+8 = 10680002
bne %xcc, .+8 = 12680002
bg %xcc, .+8 = 14680002
bge %xcc, .+8 = 16680002
bgu %xcc, .+8 = 18680002
bcc %xcc, .+8 = 1a680002
bpos %xcc, .+8 = 1c680002
bvc %xcc, .+8 = 1e680002
b %icc, . = 10480000
be %icc, . = 02480000
be,a %icc, .+4 = 22480001
be,pt %icc, .+4 = 02480001
be,pn %icc, .+4 = 02400001
be,a,pt %xcc, .+4 = 22680001
be,a,pn %xcc, .-4 = 2267ffff
brz %o1, .+12 = 02ca4003
brlez %o1, .+12 = 04ca4003
brlz %o1, .+12 = 06ca4003
brnz %o1, .+12 = 0aca4003
brgz %o1, .+12 = 0cca4003
brgez %o1, .+12 = 0eca4003
brz,a %o1, . = 22ca4000
brnz,pn %o1, . = 0ac24000
brnz,a,pn %o1, .-12 = 2af27ffd
brgez,pt %o1, . = 0eca4000
brgz,a,pt %l1, . = 2ccc4000
call . = 40000000
call .+0x1000 = 40000400
jmpl %o7+8, %g0 = 81c3e008
jmpl %g1, %o7 = 9fc04000
jmpl %g1+%g2, %o7 = 9fc04002
jmpl %g1-4, %o7 = 9fc07ffc
jmp %g1+%g2 = 81c04002
jmp %o7+8 = 81c3e008
return %i7+8 = 81cfe008
return %i7-8 = 81cffff8
return %g1 = 81c84000
flush %g1 = 81d84000
flush %g1+%g2 = 81d84002
flush %g1+8 = 81d86008
tn 16 = 81d02010
te 16 = 83d02010
tle 16 = 85d02010
tl 16 = 87d02010
tleu 16 = 89d02010
tcs 16 = 8bd02010
tneg 16 = 8dd02010
tvs 16 = 8fd02010
ta 16 = 91d02010
tne 16 = 93d02010
tg 16 = 95d02010
tge 16 = 97d02010
tgu 16 = 99d02010
tcc 16 = 9bd02010
tpos 16 = 9dd02010
tvc 16 = 9fd02010
ta %g1 = 91d00001
ta %icc, %g1 = 91d04000
ta %xcc, %g1+%g2 = 91d05002
te %xcc, %g1+3 = 83d07003
tne %icc, %g0+127 = 93d0207f
ta 1 = 91d02001
tvc %xcc, %g1 = 9fd05000
movn %icc, %g1, %g2 = 85640001
move %icc, %g1, %g2 = 85644001
movle %icc, %g1, %g2 = 85648001
movl %icc, %g1, %g2 = 8564c001
movleu %icc, %g1, %g2 = 85650001
movcs %icc, %g1, %g2 = 85654001
movneg %icc, %g1, %g2 = 85658001
movvs %icc, %g1, %g2 = 8565c001
mova %icc, %g1, %g2 = 85660001
movne %icc, %g1, %g2 = 85664001
movg %icc, %g1, %g2 = 85668001
movge %icc, %g1, %g2 = 8566c001
movgu %icc, %g1, %g2 = 85670001
movcc %icc, %g1, %g2 = 85674001
movpos %icc, %g1, %g2 = 85678001
movvc %icc, %g1, %g2 = 8567c001
move %xcc, 5, %g2 = 85647005
movne %icc, -1024, %o1 = 93666400
mova %xcc, 1023, %o1 = 936633ff
movrz %o1, %o2, %o3 = 977a440a
movrlez %o1, %o2, %o3 = 977a480a
movrlz %o1, %o2, %o3 = 977a4c0a
movrnz %o1, %o2, %o3 = 977a540a
movrgz %o1, %o2, %o3 = 977a580a
movrgez %o1, %o2, %o3 = 977a5c0a
movrz %o1, -512, %o3 = 977a6600
movrgz %o1, 511, %o3 = 977a79ff
lduw [%g1+%g2], %o2 = d4004002
ld [%g1+%g2], %o2 = d4004002
ldub [%g1+%g2], %o2 = d4084002
lduh [%g1+%g2], %o2 = d4104002
ldtw [%g1+%g2], %o2 = d4184002
ldd [%g1+%g2], %o2 = d4184002
ldsw [%g1+%g2], %o2 = d4404002
ldsb [%g1+%g2], %o2 = d4484002
ldsh [%g1+%g2], %o2 = d4504002
ldx [%g1+%g2], %o2 = d4584002
ldstub [%g1+%g2], %o2 = d4684002
swap [%g1+%g2], %o2 = d4784002
ldx [%g1], %o1 = d2584000
ldx [%g1+8], %o1 = d2586008
ldx [%g1-8], %o1 = d2587ff8
ldx [0x200], %o1 = d2582200
ldx [-8], %o1 = d2583ff8
ldub [%g1+%lo(0x1234)], %o1 = d2086234
ldx [%g1+4-8], %o1 = d2587ffc
stw %o2, [%g1+%g2] = d4204002
st %o2, [%g1+%g2] = d4204002
stb %o2, [%g1+%g2] = d4284002
sth %o2, [%g1+%g2] = d4304002
sttw %o2, [%g1+%g2] = d4384002
std %o2, [%g1+%g2] = d4384002
stx %o2, [%g1+%g2] = d4704002
stx %o1, [%g1] = d2704000
stx %o1, [%g1+8] = d2706008
stb %o1, [%g1-1] = d2287fff
stx %g1, [0x200] = c2702200
stx %g0, [%g0+0x200] = c0702200
lduwa [%g1+%g2] 128, %o2 = d4805002
lduwa [%g1+8] %asi, %o2 = d4806008
lda [%g1+%g2] 128, %o2 = d4805002
lda [%g1+8] %asi, %o2 = d4806008
lduba [%g1+%g2] 128, %o2 = d4885002
lduba [%g1+8] %asi, %o2 = d4886008
lduha [%g1+%g2] 128, %o2 = d4905002
lduha [%g1+8] %asi, %o2 = d4906008
ldtwa [%g1+%g2] 128, %o2 = d4985002
ldtwa [%g1+8] %asi, %o2 = d4986008
ldda [%g1+%g2] 128, %o2 = d4985002
ldda [%g1+8] %asi, %o2 = d4986008
ldswa [%g1+%g2] 128, %o2 = d4c05002
ldswa [%g1+8] %asi, %o2 = d4c06008
ldsba [%g1+%g2] 128, %o2 = d4c85002
ldsba [%g1+8] %asi, %o2 = d4c86008
ldsha [%g1+%g2] 128, %o2 = d4d05002
ldsha [%g1+8] %asi, %o2 = d4d06008
ldxa [%g1+%g2] 128, %o2 = d4d85002
ldxa [%g1+8] %asi, %o2 = d4d86008
ldstuba [%g1+%g2] 128, %o2 = d4e85002
ldstuba [%g1+8] %asi, %o2 = d4e86008
swapa [%g1+%g2] 128, %o2 = d4f85002
swapa [%g1+8] %asi, %o2 = d4f86008
ldxa [%g1] 0x20, %o1 = d2d84400
ldxa [%g1] %asi, %o1 = d2d86000
ldxa [%g1-16] %asi, %o1 = d2d87ff0
lduwa [%g1+%g0] 0x88, %o1 = d2805100
stwa %o2, [%g1+%g2] 4 = d4a04082
stwa %o2, [%g1-8] %asi = d4a07ff8
sta %o2, [%g1+%g2] 4 = d4a04082
sta %o2, [%g1-8] %asi = d4a07ff8
stba %o2, [%g1+%g2] 4 = d4a84082
stba %o2, [%g1-8] %asi = d4a87ff8
stha %o2, [%g1+%g2] 4 = d4b04082
stha %o2, [%g1-8] %asi = d4b07ff8
sttwa %o2, [%g1+%g2] 4 = d4b84082
sttwa %o2, [%g1-8] %asi = d4b87ff8
stda %o2, [%g1+%g2] 4 = d4b84082
stda %o2, [%g1-8] %asi = d4b87ff8
stxa %o2, [%g1+%g2] 4 = d4f04082
stxa %o2, [%g1-8] %asi = d4f07ff8
stxa %o1, [%g1] 0x14 = d2f04280
stxa %o1, [%g1] %asi = d2f06000
casa [%g1] 0x80, %g2, %g3 = c7e05002
casxa [%g1] 0x88, %g2, %g3 = c7f05102
casa [%g1] %asi, %g2, %g3 = c7e06002
casxa [%g1] %asi, %g2, %g3 = c7f06002
cas [%g1], %g2, %g3 = c7e05002
casx [%l0], %g1, %g2 = c5f41001
prefetch [%g1+%g2], 1 = c3684002
prefetch [%g1+8], 31 = ff686008
prefetch [0x100], 2 = c5682100
prefetcha [%g1+%g2] 0x80, 3 = c7e85002
prefetcha [%g1+8] %asi, 4 = c9e86008
prefetcha [%g1] 4, 0 = c1e84080
rd %y, %g1 = 83400000
rd %ccr, %g1 = 83408000
rd %asi, %g1 = 8340c000
rd %tick, %g1 = 83410000
rd %pc, %g1 = 83414000
rd %fprs, %g1 = 83418000
rd %softint, %g1 = 83458000
rd %asr0, %g2 = 85400000
rd %asr2, %g2 = 85408000
rd %asr3, %g2 = 8540c000
rd %asr4, %g2 = 85410000
rd %asr5, %g2 = 85414000
rd %asr6, %g2 = 85418000
rd %asr22, %g2 = 85458000
wr %g1, 5, %y = 81806005
wr %g1, 5, %ccr = 85806005
wr %g1, 5, %asi = 87806005
wr %g1, 5, %fprs = 8d806005
wr %g1, 5, %set_softint = a9806005
wr %g1, 5, %clear_softint = ab806005
wr %g1, 5, %softint = ad806005
wr %g0, 0, %asr26 = b5802000
wr %g1, %g2, %asr20 = a9804002
wr %g1, -1, %y = 81807fff
rdpr %tpc, %o3 = 97500000
rdpr %tnpc, %o3 = 97504000
rdpr %tstate, %o3 = 97508000
rdpr %tt, %o3 = 9750c000
rdpr %tick, %o3 = 97510000
rdpr %tba, %o3 = 97514000
rdpr %pstate, %o3 = 97518000
rdpr %tl, %o3 = 9751c000
rdpr %pil, %o3 = 97520000
rdpr %cwp, %o3 = 97524000
rdpr %cansave, %o3 = 97528000
rdpr %canrestore, %o3 = 9752c000
rdpr %cleanwin, %o3 = 97530000
rdpr %otherwin, %o3 = 97534000
rdpr %wstate, %o3 = 97538000
rdpr %gl, %o3 = 97540000
wrpr %o3, 7, %tpc = 8192e007
wrpr %o3, 7, %tnpc = 8392e007
wrpr %o3, 7, %tstate = 8592e007
wrpr %o3, 7, %tt = 8792e007
wrpr %o3, 7, %tba = 8b92e007
wrpr %o3, 7, %pstate = 8d92e007
wrpr %o3, 7, %tl = 8f92e007
wrpr %o3, 7, %pil = 9192e007
wrpr %o3, 7, %cwp = 9392e007
wrpr %o3, 7, %cansave = 9592e007
wrpr %o3, 7, %canrestore = 9792e007
wrpr %o3, 7, %cleanwin = 9992e007
wrpr %o3, 7, %otherwin = 9b92e007
wrpr %o3, 7, %wstate = 9d92e007
wrpr %o3, 7, %gl = a192e007
wrpr %g1, %g2, %tba = 8b904002
membar #LoadLoad = 8143e001
membar #StoreLoad = 8143e002
membar #LoadStore = 8143e004
membar #StoreStore = 8143e008
membar #Lookaside = 8143e010
membar #MemIssue = 8143e020
membar #Sync = 8143e040
membar #LoadLoad | #StoreStore|#Sync = 8143e049
membar 127 = 8143e07f
membar 0 = 8143e000
membar 2 = 8143e002
nop = 01000000
flushw = 81580000
saved = 81880000
restored = 83880000
done = 81f00000
retry = 83f00000
stbar = 8143c000
ret = 81c7e008
retl = 81c3e008
illtrap 0 = 00000000
illtrap 4194303 = 003fffff
mov 5, %g1 = 82102005
mov %g1, %g2 = 84100001
mov -4096, %o0 = 90103000
cmp %g1, %g2 = 80a04002
cmp %g1, 7 = 80a06007
tst %g3 = 80900003
clr %l7 = ae100000
inc %o1 = 92026001
dec %o1 = 92226001
not %o1 = 923a4000
neg %o1 = 92200009
set 0x12345678, %g1 = 03048d15 82106278
set 4294967295, %g2 = 053fffff 8410a3ff
set 0, %g3 = 07000000 8610e000
set 1024, %g3 = 07000001 8610e000
";

// Texts with `/` for a line feed, the line of the first fault, and its kind.
const FAULTS: &str = "\
@ => 1 Syntax
nop/ nop ; => 2 Syntax
add %g1, 1a, %g2 => 1 Syntax
.ascii \"ab => 1 Syntax
.ascii \"a\\q\" => 1 Syntax
1: nop => 1 Syntax
.: nop => 1 Syntax
a: : => 1 Syntax
a =  => 1 Syntax
a = 1 2 => 1 Syntax
a = %foo(3) => 1 Syntax
a = (1) => 1 Syntax
. = 1 => 1 Syntax
%g1 = 1 => 1 Syntax
nop @ ! @ => 1 Syntax
a = %hi(1 => 1 Syntax
a = %hi 1 => 1 Syntax
a = 1 + => 1 Syntax
a = - - 1 => 1 Syntax
// frob %g1 => 3 UnknownName
.frob 1 => 1 UnknownName
add %g8, 1, %g2 => 1 UnknownName
membar #storeload => 1 UnknownName
mulxcc %g1, %g2, %g3 => 1 UnknownName
rd %asr07, %g1 => 1 UnknownName
nop %. => 1 UnknownName
nop #. => 1 UnknownName
wr %g1, 0, %hpstate => 1 UnknownName
ADD %g1, 1, %g2 => 1 UnknownName
bfoo . => 1 UnknownName
mov%g1 => 1 BadOperand
casx.a [%g1], %g1, %g2 => 1 UnknownName
prefetchaa [%g1] 4, 0 => 1 UnknownName
flushwa => 1 UnknownName
add %g1, 1 => 1 BadOperand
add 1, %g1, %g2 => 1 BadOperand
add %g1, 1, %g2, %g3 => 1 BadOperand
add %g1 1, %g2 => 1 BadOperand
ldx %g1, %g2 => 1 BadOperand
ldx [%g1+%g2+1], %g3 => 1 BadOperand
ldx [%g1], 5 => 1 BadOperand
stx [%g1], %g2 => 1 BadOperand
ldxa [%g1+8] 4, %g2 => 1 BadOperand
ldxa [8] 4, %g2 => 1 BadOperand
ldxa [%g1+%g2] %asi, %g2 => 1 BadOperand
ldxa [%g1], %g2 => 1 BadOperand
ldx [%g1] 4, %g2 => 1 BadOperand
casa [%g1+0] 4, %g1, %g2 => 1 BadOperand
cas [%g1] 4, %g1, %g2 => 1 BadOperand
ta %g1+1 => 1 BadOperand
ba,a,pt . => 1 BadOperand
ba,pt . => 1 BadOperand
be %icc . => 1 BadOperand
brz,pn,a %g1, . => 1 BadOperand
rd %tl, %g1 => 1 BadOperand
rdpr %y, %g1 => 1 BadOperand
add %icc, 1, %g1 => 1 BadOperand
membar => 1 BadOperand
membar #Sync #Sync => 1 BadOperand
membar #Sync | => 1 BadOperand
nop 1 => 1 BadOperand
ret %g1 => 1 BadOperand
.word => 1 BadOperand
.word 1, => 1 BadOperand
.word 1 2 => 1 BadOperand
.ascii 1 => 1 BadOperand
.asciz \"a\", \"b\" => 1 BadOperand
.org => 1 BadOperand
.text 1 => 1 BadOperand
.global => 1 BadOperand
.global . => 1 BadOperand
.global a, b => 1 BadOperand
call %g1 => 1 BadOperand
mov 1, 2 => 1 BadOperand
save %g1 => 1 BadOperand
sethi %g1, %g2 => 1 BadOperand
add %g1, (1), %g2 => 1 BadOperand
a:/a: => 2 DuplicateLabel
a: a: => 1 DuplicateLabel
a = 1/a: => 2 DuplicateLabel
a: a = 1 => 1 DuplicateLabel
a://a = 2 => 3 DuplicateLabel
b = a/a: => 1 MissingLabel
a: b = a => 1 MissingLabel
a: .skip a => 1 MissingLabel
.org a => 1 MissingLabel
.align a/a = 4 => 1 MissingLabel
a = a => 1 MissingLabel
_x = %lo(y) => 1 MissingLabel
.org 0x8000000000 => 1 OutOfRange
.org -1 => 1 OutOfRange
.align 0 => 1 OutOfRange
.align 3 => 1 OutOfRange
.align 8192 => 1 OutOfRange
.byte 0/ nop => 2 OutOfRange
.org 0x7fffffffff/ .half 0 => 2 OutOfRange
.org 0x7ffffffffc/ set 0, %g1 => 2 OutOfRange
.org 0x7fffffffff/ .align 2/ .byte 0 => 3 OutOfRange
.skip 16777217 => 1 TooLong
.skip 16777216/ .byte 0 => 2 TooLong
.skip 0x8000000000000000 => 1 TooLong
.skip -1 => 1 TooLong
.skip 16777213/ nop => 2 TooLong
ba nowhere => 1 MissingLabel
.word 1, nowhere => 1 MissingLabel
add %g1, %lo(nowhere), %g2 => 1 MissingLabel
set a+b, %g1/a = 1 => 1 MissingLabel
ldxa [%g1] a, %g2 => 1 MissingLabel
prefetch [%g1], a => 1 MissingLabel
add %g1, 4096, %g2 => 1 OutOfRange
add %g1, -4097, %g2 => 1 OutOfRange
sll %g1, 32, %g2 => 1 OutOfRange
sllx %g1, 64, %g2 => 1 OutOfRange
movne %icc, 1024, %g1 => 1 OutOfRange
movrz %g1, 512, %g2 => 1 OutOfRange
ta 256 => 1 OutOfRange
ta -1 => 1 OutOfRange
sethi 4194304, %g1 => 1 OutOfRange
sethi -1, %g1 => 1 OutOfRange
set 4294967296, %g1 => 1 OutOfRange
set -1, %g1 => 1 OutOfRange
membar 128 => 1 OutOfRange
illtrap 4194304 => 1 OutOfRange
prefetch [%g1], 32 => 1 OutOfRange
ldxa [%g1] 256, %g2 => 1 OutOfRange
ldd [%g1], %g3 => 1 OutOfRange
std %g3, [%g1] => 1 OutOfRange
ldx [4096], %g1 => 1 OutOfRange
ba .+2 => 1 OutOfRange
ba .+0x800000 => 1 OutOfRange
ba %icc, .+0x100000 => 1 OutOfRange
brz %g1, .-0x20004 => 1 OutOfRange
call .+1 => 1 OutOfRange
rd %set_softint, %g1 => 1 OutOfRange
wr %g1, 0, %pc => 1 OutOfRange
wr %g1, 0, %asr32 => 1 OutOfRange
rd %asr99999999999999999999, %g1 => 1 OutOfRange
wrpr %g1, 0, %tick => 1 OutOfRange
.byte 256 => 1 OutOfRange
.byte -129 => 1 OutOfRange
.half 65536 => 1 OutOfRange
.half -32769 => 1 OutOfRange
.word 4294967296 => 1 OutOfRange
.word -2147483649 => 1 OutOfRange
frob @ => 1 Syntax
a: a: frob @ => 1 Syntax
frob %foo => 1 UnknownName
add %foo, , => 1 UnknownName
a:/a: add => 2 BadOperand
a:/a: frob => 2 UnknownName
a:/a: .org b => 2 DuplicateLabel
a:/a: .align 3 => 2 DuplicateLabel
a:/a: .skip 16777217 => 2 TooLong
.org 0x7fffffffff/ .skip 16777217 => 2 TooLong
.byte 256, nowhere => 1 MissingLabel
add %g1, nowhere, %g2/ => 1 MissingLabel
ldda [%g1] nowhere, %g3 => 1 MissingLabel
ba nowhere/ frob => 2 UnknownName
.byte 256/ .byte nowhere => 1 OutOfRange
.byte nowhere/ .byte 256 => 1 MissingLabel
frob/ @ => 1 UnknownName
nop %/ frob => 1 Syntax
add/ a: a: => 1 BadOperand
a: a:/ add => 1 DuplicateLabel
.byte 256/ .org 0x8000000000 => 2 OutOfRange
ba nowhere/ a: a: => 2 DuplicateLabel
";

// Texts, their entry, and their chunks by address and bytes.
const OBJECTS: &[(&[u8], u64, &[(u64, &[u8])])] = &[
    (b"", 0, &[]),
    (b"\n\n ! nothing\n .text\n .global main\n", 0, &[]),
    (b".org 0x100\n.org 0x200\n", 0, &[]),
    (
        b" .org 0x100\n wr %g0, 0, %asr26",
        0x100,
        &[(0x100, b"\xb5\x80\x20\x00")],
    ),
    (
        b".org 0x100\na: .word b-a\nb: ba a\n nop",
        0x100,
        &[(0x100, b"\0\0\0\x04\x10\xbf\xff\xff\x01\0\0\0")],
    ),
    (
        b".byte -128, 255\n.half -32768, 65535\n.xword -1, 0xffffffffffffffff",
        0,
        &[(
            0,
            b"\x80\xff\x80\0\xff\xff\xff\xff\xff\xff\xff\xff\xff\xff\xff\xff\xff\xff\xff\xff\xff\xff",
        )],
    ),
    (
        b".word -2147483648, 4294967295",
        0,
        &[(0, b"\x80\0\0\0\xff\xff\xff\xff")],
    ),
    (
        b".ascii \"a!\\n\\t\\0\\\\\\\"\"\n.asciz \"\"",
        0,
        &[(0, b"a!\n\t\0\\\"\0")],
    ),
    (
        b".byte 1\n.align 4\n.byte 2\n.align 1\n.skip 2",
        0,
        &[(0, b"\x01\0\0\0\x02\0\0")],
    ),
    (
        b".org 0x103\n.align 8\n.byte 1",
        0x103,
        &[(0x103, b"\0\0\0\0\0\x01")],
    ),
    (
        b"x = 3\ny = x + x - 1\n.half y, -x + 4, %lo(x - 4), %hi(0x400), z\nz:",
        0,
        &[(0, b"\0\x05\0\x01\x03\xff\0\x01\0\x0a")],
    ),
    (
        b"a: b: .org 8\n_start: .half a, b, _start, .\n.org 4\n.byte 7",
        8,
        &[(8, b"\0\0\0\0\0\x08\0\x08"), (4, b"\x07")],
    ),
    (b"_start: .org 16\n.byte 1", 0, &[(16, b"\x01")]),
    (b"_start = 4\n.org 16\n.byte 1", 16, &[(16, b"\x01")]),
    (
        b"x: add %g1, 18446744073709551615, %g2",
        0,
        &[(0, b"\x84\0\x7f\xff")],
    ),
    (
        b".org 8\n ba 18446744073709551612",
        8,
        &[(8, b"\x10\xbf\xff\xfd")],
    ),
];

/// The bytes of words that are written in hexadecimal.
fn bytes_of(alloc: Global, words: &str) -> Result<Vec<u8>, Fail> {
    let mut bytes = Vec::new(alloc);
    for word in words.split_whitespace() {
        bytes.extend_from_slice(&u32::from_str_radix(word, 16)?.to_be_bytes())?;
    }
    Ok(bytes)
}

/// A text with `/` for a line feed.
fn text_of(alloc: Global, row: &str) -> Result<Vec<u8>, Fail> {
    let mut text = Vec::new(alloc);
    for byte in row.as_bytes() {
        text.push(if *byte == b'/' { b'\n' } else { *byte })?;
    }
    Ok(text)
}

#[test]
fn lines_make_these_words(rt: HostRuntime) -> Result<(), Fail> {
    let mut tried = 0u64;
    for row in LINES.lines() {
        if let Some((line, words)) = row.split_once(" = ") {
            assert!(rt; line.len() <= 100);
            let object = assemble(rt.alloc(), line.as_bytes())?;
            let expected = bytes_of(rt.alloc(), words)?;
            for chunk in object.chunks.as_slice() {
                assert_eq!(rt; chunk.addr, 0, "in {line}");
                assert_eq!(rt; chunk.bytes.as_slice(), expected.as_slice(), "in {line}");
                tried = tried.saturating_add(1);
            }
        }
    }
    assert_eq!(rt; tried, 357);
    Ok(())
}

#[test]
fn texts_make_these_objects(rt: HostRuntime) -> Result<(), Fail> {
    for (text, entry, expected) in OBJECTS {
        assert!(rt; text.len() <= 200);
        let object = assemble(rt.alloc(), text)?;
        assert_eq!(rt; object.entry, *entry, "in {text:?}");
        let chunks = object.chunks.as_slice();
        assert_eq!(rt; chunks.len(), expected.len(), "in {text:?}");
        for (chunk, (addr, bytes)) in chunks.iter().zip(expected.iter()) {
            assert_eq!(rt; chunk.addr, *addr, "in {text:?}");
            assert_eq!(rt; chunk.bytes.as_slice(), *bytes, "in {text:?}");
            assert_eq!(rt; chunk.zeros, 0, "in {text:?}");
        }
    }
    Ok(())
}

#[test]
fn texts_have_this_first_fault(rt: HostRuntime) -> Result<(), Fail> {
    let mut tried = 0u64;
    for row in FAULTS.lines() {
        if let Some((text, fault)) = row.rsplit_once(" => ") {
            let text = text_of(rt.alloc(), text)?;
            assert!(rt; text.len() <= 100);
            let found = match assemble(rt.alloc(), text.as_slice()) {
                Ok(_) => String::new(rt.alloc()),
                Err(AsmError { line, kind }) => format!(in rt.alloc(); "{line} {kind:?}")?,
            };
            assert_eq!(rt; found.as_str(), fault, "in {row}");
            tried = tried.saturating_add(1);
        }
    }
    assert_eq!(rt; tried, 166);
    Ok(())
}

/// The header of the file of one chunk of four bytes at 100 hex, and its program header.
const HEADERS: &str = "\
7f454c46 02020100 00000000 00000000 0002002b 00000001 00000000 00000100 00000000 00000040 \
00000000 00000000 00000000 00400038 00010000 00000000 00000001 00000007 00000000 00000078 \
00000000 00000100 00000000 00000100 00000000 00000004 00000000 00000004 00000000 00000001";

#[test]
fn objects_are_saved(rt: HostRuntime) -> Result<(), Fail> {
    let object = assemble(rt.alloc(), b" .org 0x100\n wr %g0, 0, %asr26")?;
    let mut expected = bytes_of(rt.alloc(), HEADERS)?;
    expected.extend_from_slice(&0xb580_2000u32.to_be_bytes())?;
    assert_eq!(rt; save(rt.alloc(), &object)?.as_slice(), expected.as_slice());
    let empty = save(rt.alloc(), &assemble(rt.alloc(), b"")?)?;
    assert_eq!(rt; empty.len(), 64);
    assert_eq!(rt; &empty.as_slice()[56..58], [0, 0].as_slice());
    Ok(())
}

#[test]
fn lines_are_counted_to_their_limit(rt: HostRuntime) -> Result<(), Fail> {
    let mut text = Vec::with_capacity(rt.alloc(), 65_537)?;
    for _ in 0..65_536u32 {
        text.push(b'\n')?;
    }
    assert!(rt; text.len() <= 65_536);
    let object = assemble(rt.alloc(), text.as_slice())?;
    assert_eq!(rt; object.chunks.as_slice().len(), 0);
    text.push(b'@')?;
    assert!(rt; text.len() <= 65_537);
    let found = match assemble(rt.alloc(), text.as_slice()) {
        Ok(_) => None,
        Err(error) => Some(error),
    };
    let expected = AsmError {
        line: 65_537,
        kind: AsmKind::TooLong,
    };
    assert_eq!(rt; found, Some(expected));
    Ok(())
}
