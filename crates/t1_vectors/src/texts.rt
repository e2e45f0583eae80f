//! Words and their texts.

/// Words that stand at 100 hex, each with its text after a space: at least one of each mnemonic and of
/// each form of its operands. Those without a target are lines that GNU `as` makes into these words.
pub fn words_and_texts() -> &'static str {
    TEXTS
}

const TEXTS: &str = "\
aa00000b add %g0, %o3, %l5
ac08400c and %g1, %o4, %l6
ae10800d or %g2, %o5, %l7
a018c00e xor %g3, %o6, %l0
a221000f sub %g4, %o7, %l1
a4294008 andn %g5, %o0, %l2
a6318009 orn %g6, %o1, %l3
a839c00a xnor %g7, %o2, %l4
aa40000b addc %g0, %o3, %l5
ac48400c mulx %g1, %o4, %l6
ae50800d umul %g2, %o5, %l7
a058c00e smul %g3, %o6, %l0
a261000f subc %g4, %o7, %l1
a4694008 udivx %g5, %o0, %l2
a6718009 udiv %g6, %o1, %l3
a879c00a sdiv %g7, %o2, %l4
ab68000b sdivx %g0, %o3, %l5
ac80400c addcc %g1, %o4, %l6
ae88800d andcc %g2, %o5, %l7
a090c00e orcc %g3, %o6, %l0
a299000f xorcc %g4, %o7, %l1
a4a14008 subcc %g5, %o0, %l2
a6a98009 andncc %g6, %o1, %l3
a8b1c00a orncc %g7, %o2, %l4
aab8000b xnorcc %g0, %o3, %l5
acc0400c addccc %g1, %o4, %l6
aed0800d umulcc %g2, %o5, %l7
a0d8c00e smulcc %g3, %o6, %l0
a2e1000f subccc %g4, %o7, %l1
a4f14008 udivcc %g5, %o0, %l2
a6f98009 sdivcc %g6, %o1, %l3
a901c00a taddcc %g7, %o2, %l4
ab08000b tsubcc %g0, %o3, %l5
ad10400c taddcctv %g1, %o4, %l6
af18800d tsubcctv %g2, %o5, %l7
a120c00e mulscc %g3, %o6, %l0
b52e601f sll %i1, 31, %i2
b536601f srl %i1, 31, %i2
b53e601f sra %i1, 31, %i2
b52e703f sllx %i1, 63, %i2
b536703f srlx %i1, 63, %i2
b53e703f srax %i1, 63, %i2
b52e401b sll %i1, %i3, %i2
87385002 srax %g1, %g2, %g3
84006001 add %g1, 1, %g2
84006fff add %g1, 4095, %g2
84007000 add %g1, -4096, %g2
9017e000 or %i7, 0, %o0
87e04002 save %g1, %g2, %g3
93ea2001 restore %o0, 1, %o1
91e80018 restore %g0, %i0, %o0
0f3fffff sethi 4194303, %g7
03048d15 sethi 298261, %g1
81c3e008 jmpl %o7+8, %g0
9fc04002 jmpl %g1+%g2, %o7
9fc07ffc jmpl %g1-4, %o7
81cfe008 return %i7+8
81cffff8 return %i7-8
81d84002 flush %g1+%g2
81d86008 flush %g1+8
91d05002 ta %xcc, %g1+%g2
83d07003 te %xcc, %g1+3
93d0207f tne %icc, %g0+127
85640001 movn %icc, %g1, %g2
85644001 move %icc, %g1, %g2
85648001 movle %icc, %g1, %g2
8564c001 movl %icc, %g1, %g2
85650001 movleu %icc, %g1, %g2
85654001 movcs %icc, %g1, %g2
85658001 movneg %icc, %g1, %g2
8565c001 movvs %icc, %g1, %g2
85660001 mova %icc, %g1, %g2
85664001 movne %icc, %g1, %g2
85668001 movg %icc, %g1, %g2
8566c001 movge %icc, %g1, %g2
85670001 movgu %icc, %g1, %g2
85674001 movcc %icc, %g1, %g2
85678001 movpos %icc, %g1, %g2
8567c001 movvc %icc, %g1, %g2
85647005 move %xcc, 5, %g2
93666400 movne %icc, -1024, %o1
936633ff mova %xcc, 1023, %o1
977a440a movrz %o1, %o2, %o3
977a480a movrlez %o1, %o2, %o3
977a4c0a movrlz %o1, %o2, %o3
977a540a movrnz %o1, %o2, %o3
977a580a movrgz %o1, %o2, %o3
977a5c0a movrgez %o1, %o2, %o3
977a6600 movrz %o1, -512, %o3
977a79ff movrgz %o1, 511, %o3
d4004002 lduw [%g1+%g2], %o2
d4084002 ldub [%g1+%g2], %o2
d4104002 lduh [%g1+%g2], %o2
d4184002 ldtw [%g1+%g2], %o2
d4404002 ldsw [%g1+%g2], %o2
d4484002 ldsb [%g1+%g2], %o2
d4504002 ldsh [%g1+%g2], %o2
d4584002 ldx [%g1+%g2], %o2
d4684002 ldstub [%g1+%g2], %o2
d4784002 swap [%g1+%g2], %o2
d2586008 ldx [%g1+8], %o1
d2587ff8 ldx [%g1-8], %o1
d4204002 stw %o2, [%g1+%g2]
d4284002 stb %o2, [%g1+%g2]
d4304002 sth %o2, [%g1+%g2]
d4384002 sttw %o2, [%g1+%g2]
d4704002 stx %o2, [%g1+%g2]
d2706008 stx %o1, [%g1+8]
d2287fff stb %o1, [%g1-1]
d4805002 lduwa [%g1+%g2] 128, %o2
d4806008 lduwa [%g1+8] %asi, %o2
d4885002 lduba [%g1+%g2] 128, %o2
d4886008 lduba [%g1+8] %asi, %o2
d4905002 lduha [%g1+%g2] 128, %o2
d4906008 lduha [%g1+8] %asi, %o2
d4985002 ldtwa [%g1+%g2] 128, %o2
d4986008 ldtwa [%g1+8] %asi, %o2
d4c05002 ldswa [%g1+%g2] 128, %o2
d4c06008 ldswa [%g1+8] %asi, %o2
d4c85002 ldsba [%g1+%g2] 128, %o2
d4c86008 ldsba [%g1+8] %asi, %o2
d4d05002 ldsha [%g1+%g2] 128, %o2
d4d06008 ldsha [%g1+8] %asi, %o2
d4d85002 ldxa [%g1+%g2] 128, %o2
d4d86008 ldxa [%g1+8] %asi, %o2
d4e85002 ldstuba [%g1+%g2] 128, %o2
d4e86008 ldstuba [%g1+8] %asi, %o2
d4f85002 swapa [%g1+%g2] 128, %o2
d4f86008 swapa [%g1+8] %asi, %o2
d2d87ff0 ldxa [%g1-16] %asi, %o1
d4a04082 stwa %o2, [%g1+%g2] 4
d4a07ff8 stwa %o2, [%g1-8] %asi
d4a84082 stba %o2, [%g1+%g2] 4
d4a87ff8 stba %o2, [%g1-8] %asi
d4b04082 stha %o2, [%g1+%g2] 4
d4b07ff8 stha %o2, [%g1-8] %asi
d4b84082 sttwa %o2, [%g1+%g2] 4
d4b87ff8 sttwa %o2, [%g1-8] %asi
d4f04082 stxa %o2, [%g1+%g2] 4
d4f07ff8 stxa %o2, [%g1-8] %asi
c7e06002 casa [%g1] %asi, %g2, %g3
c7f06002 casxa [%g1] %asi, %g2, %g3
c3684002 prefetch [%g1+%g2], 1
ff686008 prefetch [%g1+8], 31
c9e86008 prefetcha [%g1+8] %asi, 4
83400000 rd %y, %g1
83408000 rd %ccr, %g1
8340c000 rd %asi, %g1
83410000 rd %tick, %g1
83414000 rd %pc, %g1
83458000 rd %softint, %g1
81806005 wr %g1, 5, %y
85806005 wr %g1, 5, %ccr
87806005 wr %g1, 5, %asi
a9806005 wr %g1, 5, %set_softint
ab806005 wr %g1, 5, %clear_softint
ad806005 wr %g1, 5, %softint
b5802000 wr %g0, 0, %asr26
81807fff wr %g1, -1, %y
97500000 rdpr %tpc, %o3
97504000 rdpr %tnpc, %o3
97508000 rdpr %tstate, %o3
9750c000 rdpr %tt, %o3
97510000 rdpr %tick, %o3
97514000 rdpr %tba, %o3
97518000 rdpr %pstate, %o3
9751c000 rdpr %tl, %o3
97520000 rdpr %pil, %o3
97524000 rdpr %cwp, %o3
97528000 rdpr %cansave, %o3
9752c000 rdpr %canrestore, %o3
97530000 rdpr %cleanwin, %o3
97534000 rdpr %otherwin, %o3
97538000 rdpr %wstate, %o3
97540000 rdpr %gl, %o3
8192e007 wrpr %o3, 7, %tpc
8392e007 wrpr %o3, 7, %tnpc
8592e007 wrpr %o3, 7, %tstate
8792e007 wrpr %o3, 7, %tt
8b92e007 wrpr %o3, 7, %tba
8d92e007 wrpr %o3, 7, %pstate
8f92e007 wrpr %o3, 7, %tl
9192e007 wrpr %o3, 7, %pil
9392e007 wrpr %o3, 7, %cwp
9592e007 wrpr %o3, 7, %cansave
9792e007 wrpr %o3, 7, %canrestore
9992e007 wrpr %o3, 7, %cleanwin
9b92e007 wrpr %o3, 7, %otherwin
9d92e007 wrpr %o3, 7, %wstate
a192e007 wrpr %o3, 7, %gl
8b904002 wrpr %g1, %g2, %tba
8143e07f membar 127
8143e000 membar 0
8143e002 membar 2
81580000 flushw
81880000 saved
83880000 restored
81f00000 done
83f00000 retry
8143c000 stbar
10800000 ba 0x0000000000000100
32bfffff bne,a 0x00000000000000fc
01000000 sethi 0, %g0
00800002 bn 0x0000000000000108
2267ffff be,a,pn %xcc, 0x00000000000000fc
02480001 be %icc, 0x0000000000000104
22680001 be,a %xcc, 0x0000000000000104
02400001 be,pn %icc, 0x0000000000000104
2af27ffd brnz,a,pn %o1, 0x00000000000000f4
22ca4000 brz,a %o1, 0x0000000000000100
40000000 call 0x0000000000000100
7fffffbf call 0xfffffffffffffffc
00000000 .word 0x00000000
003fffff .word 0x003fffff
81a00000 .word 0x81a00000
ffffffff .word 0xffffffff
91d02001 ta %icc, %g0+1
9de3bfa0 save %o6, -96, %o6
d2d84400 ldxa [%g1+%g0] 32, %o1
c7e05002 casa [%g1] 128, %g2, %g3
c7f05102 casxa [%g1] 136, %g2, %g3
83418000 rd %fprs, %g1
8d806005 wr %g1, 5, %fprs
";
