//! Words and their fields in hexadecimal, made by `tests/vectors/make.py`: the word, the instruction's name, and its fields in
//! order.

pub const REGISTERS: &str = "
007302b3 add 5 6 7
01000fb3 add 1f 0 10
001f8433 add 8 1f 1
01f78033 add 0 f 1f
407302b3 sub 5 6 7
41000fb3 sub 1f 0 10
401f8433 sub 8 1f 1
41f78033 sub 0 f 1f
007322b3 slt 5 6 7
01002fb3 slt 1f 0 10
001fa433 slt 8 1f 1
01f7a033 slt 0 f 1f
007332b3 sltu 5 6 7
01003fb3 sltu 1f 0 10
001fb433 sltu 8 1f 1
01f7b033 sltu 0 f 1f
007342b3 xor 5 6 7
01004fb3 xor 1f 0 10
001fc433 xor 8 1f 1
01f7c033 xor 0 f 1f
007362b3 or 5 6 7
01006fb3 or 1f 0 10
001fe433 or 8 1f 1
01f7e033 or 0 f 1f
007372b3 and 5 6 7
01007fb3 and 1f 0 10
001ff433 and 8 1f 1
01f7f033 and 0 f 1f
007312b3 sll 5 6 7
01001fb3 sll 1f 0 10
001f9433 sll 8 1f 1
01f79033 sll 0 f 1f
007352b3 srl 5 6 7
01005fb3 srl 1f 0 10
001fd433 srl 8 1f 1
01f7d033 srl 0 f 1f
407352b3 sra 5 6 7
41005fb3 sra 1f 0 10
401fd433 sra 8 1f 1
41f7d033 sra 0 f 1f
";

pub const IMMEDIATES: &str = "
00030293 addi 5 6 0
7ff80f93 addi 1f 10 7ff
800f8093 addi 1 1f fffff800
fff40013 addi 0 8 ffffffff
00032293 slti 5 6 0
7ff82f93 slti 1f 10 7ff
800fa093 slti 1 1f fffff800
fff42013 slti 0 8 ffffffff
00033293 sltiu 5 6 0
7ff83f93 sltiu 1f 10 7ff
800fb093 sltiu 1 1f fffff800
fff43013 sltiu 0 8 ffffffff
00034293 xori 5 6 0
7ff84f93 xori 1f 10 7ff
800fc093 xori 1 1f fffff800
fff44013 xori 0 8 ffffffff
00036293 ori 5 6 0
7ff86f93 ori 1f 10 7ff
800fe093 ori 1 1f fffff800
fff46013 ori 0 8 ffffffff
00037293 andi 5 6 0
7ff87f93 andi 1f 10 7ff
800ff093 andi 1 1f fffff800
fff47013 andi 0 8 ffffffff
00031293 slli 5 6 0
01f81f93 slli 1f 10 1f
010f9093 slli 1 1f 10
00141013 slli 0 8 1
00035293 srli 5 6 0
01f85f93 srli 1f 10 1f
010fd093 srli 1 1f 10
00145013 srli 0 8 1
40035293 srai 5 6 0
41f85f93 srai 1f 10 1f
410fd093 srai 1 1f 10
40145013 srai 0 8 1
";

pub const LOADS_AND_STORES: &str = "
00030283 lb 5 6 0
7ff80f83 lb 1f 10 7ff
800f8083 lb 1 1f fffff800
fff40003 lb 0 8 ffffffff
00034283 lbu 5 6 0
7ff84f83 lbu 1f 10 7ff
800fc083 lbu 1 1f fffff800
fff44003 lbu 0 8 ffffffff
00031283 lh 5 6 0
7ff81f83 lh 1f 10 7ff
800f9083 lh 1 1f fffff800
fff41003 lh 0 8 ffffffff
00035283 lhu 5 6 0
7ff85f83 lhu 1f 10 7ff
800fd083 lhu 1 1f fffff800
fff45003 lhu 0 8 ffffffff
00032283 lw 5 6 0
7ff82f83 lw 1f 10 7ff
800fa083 lw 1 1f fffff800
fff42003 lw 0 8 ffffffff
00730fa3 sb 6 7 1f
030f8023 sb 1f 10 20
81f08023 sb 1 1f fffff800
7e880fa3 sb 10 8 7ff
fef00fa3 sb 0 f ffffffff
00731fa3 sh 6 7 1f
030f9023 sh 1f 10 20
81f09023 sh 1 1f fffff800
7e881fa3 sh 10 8 7ff
fef01fa3 sh 0 f ffffffff
00732fa3 sw 6 7 1f
030fa023 sw 1f 10 20
81f0a023 sw 1 1f fffff800
7e882fa3 sw 10 8 7ff
fef02fa3 sw 0 f ffffffff
";

pub const JUMPS_AND_UPPER_IMMEDIATES: &str = "
7e730fe3 beq 6 7 ffe
810f8063 beq 1f 10 fffff000
01f080e3 beq 1 1f 800
00880f63 beq 10 8 1e
fef00fe3 beq 0 f fffffffe
7e731fe3 bne 6 7 ffe
810f9063 bne 1f 10 fffff000
01f090e3 bne 1 1f 800
00881f63 bne 10 8 1e
fef01fe3 bne 0 f fffffffe
7e734fe3 blt 6 7 ffe
810fc063 blt 1f 10 fffff000
01f0c0e3 blt 1 1f 800
00884f63 blt 10 8 1e
fef04fe3 blt 0 f fffffffe
7e735fe3 bge 6 7 ffe
810fd063 bge 1f 10 fffff000
01f0d0e3 bge 1 1f 800
00885f63 bge 10 8 1e
fef05fe3 bge 0 f fffffffe
7e736fe3 bltu 6 7 ffe
810fe063 bltu 1f 10 fffff000
01f0e0e3 bltu 1 1f 800
00886f63 bltu 10 8 1e
fef06fe3 bltu 0 f fffffffe
7e737fe3 bgeu 6 7 ffe
810ff063 bgeu 1f 10 fffff000
01f0f0e3 bgeu 1 1f 800
00887f63 bgeu 10 8 1e
fef07fe3 bgeu 0 f fffffffe
7ffff06f jal 0 ffffe
800000ef jal 1 fff00000
00100fef jal 1f 800
fffff2ef jal 5 fffffffe
0000186f jal 10 1000
7fe0046f jal 8 7fe
000302e7 jalr 5 6 0
7ff80fe7 jalr 1f 10 7ff
800f80e7 jalr 1 1f fffff800
fff40067 jalr 0 8 ffffffff
800002b7 lui 5 80000000
7fffffb7 lui 1f 7ffff000
00001037 lui 0 1000
fffff837 lui 10 fffff000
80000297 auipc 5 80000000
7fffff97 auipc 1f 7ffff000
00001017 auipc 0 1000
fffff817 auipc 10 fffff000
";
