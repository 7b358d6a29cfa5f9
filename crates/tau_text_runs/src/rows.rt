//! The rows of the grammar: texts, or lines of them, and what is read.

/// Whole texts: which lines there are, and where.
pub static LINES: &str = "\
good:
good:¶¶
good:   ¶
good:# anything at all¶
good:   # behind spaces
good:#table a¶table a
good: table   a \u{20}
1 2:tables a
1 2:Table a
1 2:\ttable a
1 2:table\ta
1 6:table a\r¶
1 2:\"table\" a
1 2:\"
1 2:none
1 2:end
1 2:done
1 2:need 1 = 1
1 2:reply 1
4 4:table a¶¶# c¶table a
1 2:tab a¶tab b
2 7:table a¶put a 1 1 1¶put b 1 1
3 2:table a¶get a 1¶table b
3 2:table a¶get a 1¶proc p 0
2 2:turns¶table a
2 2:turns¶proc p 0
3 2:table a¶turns w0¶put a 1 1
3 2:table a¶turns¶get a 1
2 2:turns¶del a 1
2 2:turns¶add a 1 1
2 2:turns¶call p
good:turns w0¶# c¶¶turns m1
good:turns
2 4:table a¶table a
3 6:table a¶proc p 0¶done
4 9:table a¶proc p 0¶when 1 = 1¶end
2 9:table a¶proc p 0
2 8:table a¶get a
2 5:table a¶put a 01 5
2 3:table a¶put b 1 5
2 5:table a¶put a 9223372036854775808 1";

/// Whole texts: lines of declarations.
pub static DECLARATIONS: &str = "\
1 8:table
1 8:table\u{20}
1 7:table a b
1 7:table a # x
1 6:table 1a
1 6:table _a
1 6:table A
1 6:table a-b
1 6:table é
1 6:table \"a\"
good:table a_9z
good:table aaaaaaaaaaaaaaaa
1 7:table aaaaaaaaaaaaaaaaa
1 6:table aaaaaaaaaaaaaaaaA
2 4:table a¶table a b
good:table put¶table table
1 8:proc
1 8:proc p
1 7:proc p 0 0
1 6:proc P 0
1 5:proc p x
1 5:proc p -1
1 7:proc p 9
1 5:proc p 01
1 5:proc p +1
1 5:proc p -0
1 7:proc p 9223372036854775807
1 5:proc p 9223372036854775808
1 5:proc p \"1\"
1 5:proc p none
1 7:proc aaaaaaaaaaaaaaaaa 0
good:proc p 8¶end
good:proc put 0¶end
good:table p¶proc p 0¶end
3 4:proc p 0¶end¶proc p 0¶end
3 4:proc p 0¶end¶proc p x
1 9:proc p 0
1 9:proc p 0¶reply 1¶
3 9:¶# c¶  proc p 0¶
2 2:proc p 0¶proc q 0
2 2:proc p 0¶table a
2 2:proc p 0¶turns
2 2:proc p 0¶call p
2 2:proc p 0¶foo
2 7:proc p 0¶end x
good:proc p 0¶# end¶¶  end \u{20}
3 9:proc p 0¶when 1 = 1¶end x
2 6:proc p 0¶done x
3 7:proc p 0¶when 1 = 1¶done x
4 6:proc p 0¶when 1 = 1¶done¶done
5 9:proc p 0¶when 1 = 1¶when 1 = 1¶done¶end
good:proc p 0¶when 1 = 1¶when 2 = 2¶done¶done¶end";

/// Steps of a procedure of two arguments, where the table `a` is declared.
pub static STEPS: &str = "\
good:get r0 a 1
good:get r15 a $2
3 8:get
3 8:get r0
3 8:get r0 a
3 7:get r0 a 1 1
3 6:get r16 a 1
3 6:get r01 a 1
3 6:get R0 a 1
3 6:get 0 a 1
3 6:get r a 1
3 6:get r-0 a 1
3 3:get r0 b 1
3 3:get r0 p 1
3 6:get r0 1 1
3 7:get r0 aaaaaaaaaaaaaaaaa 1
3 6:get r16 b x
3 3:get r0 b 01
3 6:get r0 a $0
3 6:get r0 a $3
3 6:get r0 a $9
3 6:get r0 a $
3 6:get r0 a $01
3 5:get r0 a 01
3 5:get r0 a 1x
3 5:get r0 a -
3 5:get r0 a 9223372036854775808
3 5:get r0 a -9223372036854775809
good:get r0 a -9223372036854775808
good:get r0 a 9223372036854775807
good:get r0 a none
good:get r0 a \"x y\"
3 6:get r0 a \"x
3 6:get r0 a nothing
3 6:get r0 a r16
good:put a 1 none
good:put a r1 r2
3 3:put b 1 1
3 6:put A 1 1
3 8:put
3 8:put a
3 8:put a 1
3 7:put a 1 1 1
3 5:put a 1x 1
3 5:put a 1 1x
3 6:put a 1 x
3 6:put a $9 1
good:del a 1
3 3:del b 1
3 8:del
3 8:del a
3 7:del a 1 1
3 6:del a x
good:add r0 1 2
good:sub r0 r0 $2
good:mul r1 1 1
good:min r1 r2 r3
good:max r1 -1 0
good:cat r2 \"a\" \"b\"
3 8:add
3 8:add r0
3 8:add r0 1
3 7:add r0 1 2 3
3 6:add 1 2 3
3 6:sub r16 1 1
3 5:mul r0 1a 1
3 6:min r0 x 1
3 5:max r0 1 -a
3 6:cat r0 \"a\" \"b
good:need 1 = 1
good:need 1 != 1
good:need 1 < 1
good:need 1 <= 1
good:need r0 > $1
good:need none >= 1
3 6:need 1 == 1
3 6:need 1 <> 1
3 6:need 1 1 1
3 8:need
3 8:need 1
3 8:need 1 =
3 7:need 1 = 1 1
3 5:need 1a = 1
3 6:need x = 1
3 6:need 1 = x
3 6:when 1 =< 2
3 8:when
3 8:when 1 <
3 7:when 1 < 2 3
good:reply 1
good:reply \"\"
3 8:reply
3 7:reply 1 2
3 6:reply x
3 5:reply 1x
3 6:reply $3
3 6:reply \"a\\b\"
3 6:reply \"a\u{7f}\"
3 6:reply \"a\u{1}\"
3 6:reply \"a\tb\"
3 6:reply \"a\"b
3 6:reply \"a\"\"b\"
3 2:turns
3 2:call p
3 2:gets r0 a 1
3 2:r0
3 2:Get r0 a 1";

/// Lines after the declarations: the table `a`, the procedures `p` of two arguments and `q` of none.
pub static CALLS: &str = "\
good:put a 1 5
good:put a 0 0
good:put a -1 none
good:put a 1 \"x  y\"
6 8:put
6 8:put a
6 8:put a 1
6 7:put a 1 1 1
6 3:put b 1 5
6 3:put p 1 5
6 6:put A 1 5
6 7:put aaaaaaaaaaaaaaaaa 1 5
6 5:put a 01 5
6 5:put a x 5
6 5:put a none 5
6 5:put a \"1\" 5
6 5:put a $1 5
6 5:put a -0 1
6 5:put a +1 1
6 5:put a - 1
6 5:put a 9223372036854775808 1
6 5:put a -9223372036854775809 1
good:put a 9223372036854775807 -9223372036854775808
good:put a -9223372036854775808 9223372036854775807
6 5:put a 1 01
6 5:put a 1 -
6 6:put a 1 r0
6 6:put a 1 $1
6 6:put a 1 x
6 6:put a 1 \"x
6 6:put a 1 \"x\"y
good:add a 1 2
6 5:add a 1 none
6 5:add a 1 \"2\"
6 5:add a 1 x
6 8:add
6 8:add a
6 8:add a 1
6 7:add a 1 2 3
6 3:add b 1 2
6 5:add a x 2
good:get a 1
6 8:get
6 8:get a
6 7:get a 1 1
6 3:get b 1
6 5:get a x
good:del a 1
6 8:del
6 8:del a
6 7:del a 1 1
6 3:del b 1
6 5:del a 1.5
good:call p 1 2
good:call p none \"x\"
good:call q
6 8:call
6 8:call p
6 8:call p 1
6 7:call p 1 2 3
6 7:call q 1
6 3:call r
6 3:call a
6 3:call put a 1 2
6 6:call P
6 6:call 1
6 5:call p 1x 2
6 6:call p 1 $1
6 6:call p 1 r0
6 6:call p 1 \"x
6 7:call aaaaaaaaaaaaaaaaa
6 2:foo
6 2:end
good:turns w0 m15 a0 c d w15
good:turns
6 6:turns w16
6 6:turns w
6 6:turns w00
6 6:turns w-1
6 6:turns a99
6 6:turns m16
6 6:turns C
6 6:turns cc
6 6:turns x
6 6:turns 1
6 6:turns \"w0\"
6 6:turns w0 c0
6 6:turns d1";

/// Lines of calls that are spelled as most are, and lines that are nearly so, after the declarations of `spellings`.
pub static SPELLINGS: &str = "\
good:add a 1 2¦add a 1 2¶
good:add a 0 0¦add a 0 0¶
good:add a 10 9¦add a 10 9¶
good:add a 12345678901234567 98765432109876543¦add a 12345678901234567 98765432109876543¶
good:add a 99999999999999999 99999999999999999¦add a 99999999999999999 99999999999999999¶
good:add a 123456789012345678 1¦add a 123456789012345678 1¶
good:add a 1 999999999999999999¦add a 1 999999999999999999¶
good:add a 1234567890123456789 1¦add a 1234567890123456789 1¶
good:put a 9223372036854775807 9223372036854775807¦put a 9223372036854775807 9223372036854775807¶
11 5:add a 9223372036854775808 1
11 5:add a 1 18446744073709551617
11 5:add a 00 1
11 5:add a 01 1
11 5:add a 1 00
11 5:add a 1 01
11 5:put a 1 07
11 5:put a 1 00000000000000001
11 5:get a 010
11 5:del a 00000000000000000
11 5:call p 00 1
11 5:call p 1 02
11 5:add a -0 1
11 5:add a 1 -0
11 5:put a 1 -0
11 5:call p 1 -0
good:add a -1 -20¦add a -1 -20¶
11 5:add a +1 1
11 5:add a 1 +1
11 6:put a 1 +1
11 6:call p 1 +1
11 5:add a 1/ 1
11 5:add a 1: 1
11 5:add a 1x 1
good:add a  1 2¦add a 1 2¶
good:add a 1  2¦add a 1 2¶
good:add  a 1 2¦add a 1 2¶
good: add a 1 2¦add a 1 2¶
good:call  p 1 2¦call p 1 2¶
good:call p 1  2¦call p 1 2¶
good:add a 1 2\u{20}¦add a 1 2¶
good:get a 1 \u{20}¦get a 1¶
good:call p 1 2\u{20}¦call p 1 2¶
good:call q\u{20}¦call q¶
11 2:add\ta 1 2
11 6:add a\t1 2
11 5:add a 1\t2
11 5:add a 1 2\t
11 5:add a 1 2\r
11 5:put a 1 2\r
11 5:get a 1\r
11 6:call q\r
11 5:call p 1 2\r
11 7:add a 1 2 # c
11 7:get a 1 #
11 7:call p 1 2 #
11 7:call q # none
11 5:add a 1 2#
good:add ab 1 2¦add ab 1 2¶
good:get ab 7¦get ab 7¶
good:call pq 1¦call pq 1¶
good:call p 1 2¦call p 1 2¶
11 3:add abc 1 2
11 3:add b 1 2
11 3:add p 1 2
11 3:call pqr 1
11 3:call a 1
11 7:add a 1 2 3
11 7:put a 1 2 3
11 7:get a 1 2
11 7:del a 1 2
11 7:call p 1 2 3
11 7:call pq 1 2
11 7:call q 1
11 7:call e 1 2 3 4 5 6 7 8 9
11 8:add\u{20}
11 8:add a\u{20}
11 8:add a 1
11 8:put a 1\u{20}
11 8:call\u{20}
11 8:call p 1\u{20}
11 8:call e 1 2 3 4 5 6 7
good:call e 1 2 3 4 5 6 7 8¦call e 1 2 3 4 5 6 7 8¶
good:call p -1 none¦call p -1 none¶
good:call p \"x  y\" 0¦call p \"x  y\" 0¶
good:put a 1 none¦put a 1 none¶
good:put a 1 \"1\"¦put a 1 \"1\"¶
good:del ab 12345678901234567¦del ab 12345678901234567¶
11 2:adds a 1 2
11 2:ad a 1 2
11 2:Add a 1 2";

/// Calls of many arguments and of few, one after the other, after the same declarations: none has an argument of the one before.
pub static MANY_AND_FEW: &str = "\
good:call e 1 2 3 4 5 6 7 8¶get a 1¶add a 3 4¶call q¶call pq 5¶call p none \"x\"¶add ab 6 7¶put ab 8 \"y z\"¶\
put ab 8 9¶del a 10¶call p 11 12¶call e 8 7 6 5 4 3 2 1¶call q¶get ab 0¶¦call e 1 2 3 4 5 6 7 8¶get a 1¶\
add a 3 4¶call q¶call pq 5¶call p none \"x\"¶add ab 6 7¶put ab 8 \"y z\"¶put ab 8 9¶del a 10¶call p 11 12¶\
call e 8 7 6 5 4 3 2 1¶call q¶get ab 0¶";

/// A text with each form, the same text in its canonical form, and the empty text.
pub static FORMS: &str = "\
good:table  b¶¶ table a¶# a workload¶proc p 2¶  get r15  b $2¶del a none¶mul r0 -1 \"x  y\"¶min r1 r2 r3¶\
max r1 0 $1¶cat r2 \"\" \"é\"¶when 1 < 2¶when 1 <= 2¶need r0 = r1¶need r0 != r1¶done¶need 1 > 2¶done¶\
reply \"a\"¶end¶table c¶put a 1 \"x  y\"¶add b -9223372036854775808 9223372036854775807¶get a 0¶del b 7¶\
call p none 5¶turns w0¶turns¶turns m15 a3 c d¦table b¶table a¶table c¶proc p 2¶get r15 b $2¶del a none¶\
mul r0 -1 \"x  y\"¶min r1 r2 r3¶max r1 0 $1¶cat r2 \"\" \"é\"¶when 1 < 2¶when 1 <= 2¶need r0 = r1¶need r0 != r1¶\
done¶need 1 > 2¶done¶reply \"a\"¶end¶put a 1 \"x  y\"¶add b -9223372036854775808 9223372036854775807¶get a 0¶\
del b 7¶call p none 5¶turns w0 m15 a3 c d¶
good:table b¶table a¶table c¶proc p 2¶get r15 b $2¶del a none¶mul r0 -1 \"x  y\"¶min r1 r2 r3¶max r1 0 $1¶\
cat r2 \"\" \"é\"¶when 1 < 2¶when 1 <= 2¶need r0 = r1¶need r0 != r1¶done¶need 1 > 2¶done¶reply \"a\"¶end¶\
put a 1 \"x  y\"¶add b -9223372036854775808 9223372036854775807¶get a 0¶del b 7¶call p none 5¶\
turns w0 m15 a3 c d¶¦table b¶table a¶table c¶proc p 2¶get r15 b $2¶del a none¶mul r0 -1 \"x  y\"¶min r1 r2 r3¶\
max r1 0 $1¶cat r2 \"\" \"é\"¶when 1 < 2¶when 1 <= 2¶need r0 = r1¶need r0 != r1¶done¶need 1 > 2¶done¶\
reply \"a\"¶end¶put a 1 \"x  y\"¶add b -9223372036854775808 9223372036854775807¶get a 0¶del b 7¶call p none 5¶\
turns w0 m15 a3 c d¶
good:¦";

/// Declarations in their canonical text alone.
pub static ALONE: &str = "\
declarations good:
declarations good:table a¶
declarations good:table b¶table a¶proc p 1¶get r0 a $1¶end¶
declarations good:proc p 0¶end¶
declarations 1 2:table a
declarations 1 2: table a¶
declarations 1 2:table  a¶
declarations 2 2:table a¶¶
declarations 1 2:# c¶table a¶
declarations 2 2:table a¶# c¶
declarations 2 2:table a¶put a 1 1¶
declarations 2 2:table a¶turns¶
declarations 1 2:proc p 0¶end¶table a¶
declarations 3 2:table a¶proc p 1¶get r0 a  $1¶end¶
declarations 4 2:table a¶proc p 1¶get r0 a $1¶end
declarations 2 4:table a¶table a¶
declarations 1 9:proc p 0¶
declarations 2 3:table a¶put b 1 1¶
declarations 1 8:table¶";

/// Steps and texts up to their limits.
pub static STEPS_AND_TEXTS: &str = "\
good:proc p 0¶|64|reply 1¶|end¶
66 7:proc p 0¶|65|reply 1¶|end¶
66 6:proc p 0¶|64|reply 1¶|reply x¶end¶
good:proc p 0¶|32|when 1 = 1¶done¶|end¶
66 7:proc p 0¶|32|when 1 = 1¶done¶|reply 1¶end¶
good:table a¶put a 1 \"|32|é|\"
2 7:table a¶put a 1 \"|32|é|a\"
good:table a¶put a 1 \"|16|𝄞|\"
2 7:table a¶put a 1 \"|16|𝄞|a\"
good:table a¶put a 1 \"|64|x|\"
2 7:table a¶put a 1 \"|65|x|\"";

/// Calls and turns up to their limits.
pub static MANY: &str = "\
good:table a¶|200000|get a 1¶|turns
200002 7:table a¶|200001|get a 1¶|turns
200002 5:table a¶|200000|get a 1¶|get a x
good:turns|1000000| c|¶
1 7:turns|1000001| c|¶
3 7:turns|1000000| c|¶turns¶turns d";

/// Bytes of a text up to their limit.
pub static LONG: &str = "\
good:1048576|#234567890123456
1048577 7:1048576|#23456789012345¶|#";

/// Tables and procedures up to their limits.
pub static NUMBERED: &str = "\
good:64|table t№¶
65 7:64|table t№¶|table t64¶
65 4:64|table t№¶|table t0¶
good:256|proc p№ 0¶end¶
513 7:256|proc p№ 0¶end¶|proc p256 0¶end¶";

/// Procedures p0 to p6, with 64 steps each. A step that replies a text of n bytes takes n + 9, the lines about it 14: six
/// procedures of 4,686 bytes, and one of 4,613 and its last step. The canonical text takes 32,768 bytes, or one more.
pub static LARGE: &str = "\
good:\
proc p0 0¶|64|reply \"xxxxxxxxxxxxxxxxxxxxxxxxxxxxxxxxxxxxxxxxxxxxxxxxxxxxxxxxxxxxxxxx\"¶|¶  end  ¶\
proc p1 0¶|64|reply \"xxxxxxxxxxxxxxxxxxxxxxxxxxxxxxxxxxxxxxxxxxxxxxxxxxxxxxxxxxxxxxxx\"¶|¶  end  ¶\
proc p2 0¶|64|reply \"xxxxxxxxxxxxxxxxxxxxxxxxxxxxxxxxxxxxxxxxxxxxxxxxxxxxxxxxxxxxxxxx\"¶|¶  end  ¶\
proc p3 0¶|64|reply \"xxxxxxxxxxxxxxxxxxxxxxxxxxxxxxxxxxxxxxxxxxxxxxxxxxxxxxxxxxxxxxxx\"¶|¶  end  ¶\
proc p4 0¶|64|reply \"xxxxxxxxxxxxxxxxxxxxxxxxxxxxxxxxxxxxxxxxxxxxxxxxxxxxxxxxxxxxxxxx\"¶|¶  end  ¶\
proc p5 0¶|64|reply \"xxxxxxxxxxxxxxxxxxxxxxxxxxxxxxxxxxxxxxxxxxxxxxxxxxxxxxxxxxxxxxxx\"¶|¶  end  ¶\
proc p6 0¶|63|reply \"xxxxxxxxxxxxxxxxxxxxxxxxxxxxxxxxxxxxxxxxxxxxxxxxxxxxxxxxxxxxxxxx\"¶|reply \"xxxxxxxxxxxxxxxxxxxxxxxxxxxxxx\"¶¶  end  ¶
469 7:\
proc p0 0¶|64|reply \"xxxxxxxxxxxxxxxxxxxxxxxxxxxxxxxxxxxxxxxxxxxxxxxxxxxxxxxxxxxxxxxx\"¶|¶  end  ¶\
proc p1 0¶|64|reply \"xxxxxxxxxxxxxxxxxxxxxxxxxxxxxxxxxxxxxxxxxxxxxxxxxxxxxxxxxxxxxxxx\"¶|¶  end  ¶\
proc p2 0¶|64|reply \"xxxxxxxxxxxxxxxxxxxxxxxxxxxxxxxxxxxxxxxxxxxxxxxxxxxxxxxxxxxxxxxx\"¶|¶  end  ¶\
proc p3 0¶|64|reply \"xxxxxxxxxxxxxxxxxxxxxxxxxxxxxxxxxxxxxxxxxxxxxxxxxxxxxxxxxxxxxxxx\"¶|¶  end  ¶\
proc p4 0¶|64|reply \"xxxxxxxxxxxxxxxxxxxxxxxxxxxxxxxxxxxxxxxxxxxxxxxxxxxxxxxxxxxxxxxx\"¶|¶  end  ¶\
proc p5 0¶|64|reply \"xxxxxxxxxxxxxxxxxxxxxxxxxxxxxxxxxxxxxxxxxxxxxxxxxxxxxxxxxxxxxxxx\"¶|¶  end  ¶\
proc p6 0¶|63|reply \"xxxxxxxxxxxxxxxxxxxxxxxxxxxxxxxxxxxxxxxxxxxxxxxxxxxxxxxxxxxxxxxx\"¶|reply \"xxxxxxxxxxxxxxxxxxxxxxxxxxxxxxx\"¶¶  end  ¶
declarations good of 32768:\
proc p0 0¶|64|reply \"xxxxxxxxxxxxxxxxxxxxxxxxxxxxxxxxxxxxxxxxxxxxxxxxxxxxxxxxxxxxxxxx\"¶|end¶\
proc p1 0¶|64|reply \"xxxxxxxxxxxxxxxxxxxxxxxxxxxxxxxxxxxxxxxxxxxxxxxxxxxxxxxxxxxxxxxx\"¶|end¶\
proc p2 0¶|64|reply \"xxxxxxxxxxxxxxxxxxxxxxxxxxxxxxxxxxxxxxxxxxxxxxxxxxxxxxxxxxxxxxxx\"¶|end¶\
proc p3 0¶|64|reply \"xxxxxxxxxxxxxxxxxxxxxxxxxxxxxxxxxxxxxxxxxxxxxxxxxxxxxxxxxxxxxxxx\"¶|end¶\
proc p4 0¶|64|reply \"xxxxxxxxxxxxxxxxxxxxxxxxxxxxxxxxxxxxxxxxxxxxxxxxxxxxxxxxxxxxxxxx\"¶|end¶\
proc p5 0¶|64|reply \"xxxxxxxxxxxxxxxxxxxxxxxxxxxxxxxxxxxxxxxxxxxxxxxxxxxxxxxxxxxxxxxx\"¶|end¶\
proc p6 0¶|63|reply \"xxxxxxxxxxxxxxxxxxxxxxxxxxxxxxxxxxxxxxxxxxxxxxxxxxxxxxxxxxxxxxxx\"¶|reply \"xxxxxxxxxxxxxxxxxxxxxxxxxxxxxx\"¶end¶
declarations 462 7 of 32769:\
proc p0 0¶|64|reply \"xxxxxxxxxxxxxxxxxxxxxxxxxxxxxxxxxxxxxxxxxxxxxxxxxxxxxxxxxxxxxxxx\"¶|end¶\
proc p1 0¶|64|reply \"xxxxxxxxxxxxxxxxxxxxxxxxxxxxxxxxxxxxxxxxxxxxxxxxxxxxxxxxxxxxxxxx\"¶|end¶\
proc p2 0¶|64|reply \"xxxxxxxxxxxxxxxxxxxxxxxxxxxxxxxxxxxxxxxxxxxxxxxxxxxxxxxxxxxxxxxx\"¶|end¶\
proc p3 0¶|64|reply \"xxxxxxxxxxxxxxxxxxxxxxxxxxxxxxxxxxxxxxxxxxxxxxxxxxxxxxxxxxxxxxxx\"¶|end¶\
proc p4 0¶|64|reply \"xxxxxxxxxxxxxxxxxxxxxxxxxxxxxxxxxxxxxxxxxxxxxxxxxxxxxxxxxxxxxxxx\"¶|end¶\
proc p5 0¶|64|reply \"xxxxxxxxxxxxxxxxxxxxxxxxxxxxxxxxxxxxxxxxxxxxxxxxxxxxxxxxxxxxxxxx\"¶|end¶\
proc p6 0¶|63|reply \"xxxxxxxxxxxxxxxxxxxxxxxxxxxxxxxxxxxxxxxxxxxxxxxxxxxxxxxxxxxxxxxx\"¶|reply \"xxxxxxxxxxxxxxxxxxxxxxxxxxxxxxx\"¶end¶";
