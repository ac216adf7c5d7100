// Rows of sources with the state of `line-too-long` on each line. A row has the source with `~` for a line end and `^` for a
// tab, the nodes of its tree in postorder, and a mark a line: `-` off, `+` on, `.` neither. The trees are those of Python's
// `ast`, and the marks were made by a program over Python's `ast` and `tokenize` and read by hand.
pub(super) const BEHIND_CODE: &str = r"x  # pylint: disable=C0301~y~|p110 p220|-.
x  # pylint: disable=line-too-long~y~|p110 p220|-.
x  # pylint: disable=C~y~|p110 p220|-.
x  # pylint: disable=all~y~|p110 p220|-.
x  # pylint: enable=C0301~y~|p110 p220|+.
x  # pylint: disable=W~y~|p110 p220|..
x  # pylint: disable=W0301~y~|p110 p220|..
x  # pylint: disable=unused-import~y~|p110 p220|..
x  # pylint: disable=I~y~|p110 p220|..
x  # pylint: disable=Bad_Name~y~|p110 p220|..
x  # pylint: disable=Bad_Name,C0301~y~|p110 p220|-.
x  # pylint: disable=W0301, C0301 ,C0303~y~|p110 p220|-.
x  # pylint: disable=C0301 because~y~|p110 p220|..
x  # pylint: disable=C0301; because~y~|p110 p220|-.
x  # pylint: disable=C0301 # because~y~|p110 p220|-.
x  # pylint: disable = C0301~y~|p110 p220|..
x  # pylint: disable= C0301~y~|p110 p220|-.
x  #pylint:disable=C0301~y~|p110 p220|-.
x  #^pylint:^disable=C0301~y~|p110 p220|-.
x  # pylint : disable=C0301~y~|p110 p220|..
x  # Pylint: disable=C0301~y~|p110 p220|..
x  # noqa pylint: disable=C0301~y~|p110 p220|..
x  # noqa # pylint: disable=C0301~y~|p110 p220|-.
x  ## pylint: disable=C0301~y~|p110 p220|-.
x  # pylint: disable-msg=C0301~y~|p110 p220|..
x  # pylint: DISABLE=C0301~y~|p110 p220|..
x  # pylint: disable=c0301~y~|p110 p220|..
x  # pylint: disable=C0301# pylint: enable=C0301~y~|p110 p220|+.
x  # pylint: enable=C0301# pylint: disable=C0301~y~|p110 p220|-.
x  # pylint: disable=C0301,,~y~|p110 p220|-.
x  # pylint: disable=~y~|p110 p220|..
x = [1,~  2,  # pylint: disable=C0301~  3]~y~|p130 p440|---.
x = [1,  # pylint: disable=C0301~  2,  # pylint: enable=C0301~  3]~y~|p130 p440|+++.
x = '''1~2''' + y  # pylint: disable=C0301~z~|p120 p330|--.
x; y  # pylint: disable=C0301~z~|p110 p110 p220|-.
x = 1 + \~  2  # pylint: disable=C0301~y~|p120 p330|--.";

pub(super) const HEADERS: &str =
    r"if x:  # pylint: disable=C0301~    y~    z~w~|n110 p220 p330 I133 p440|---.
if x:  # pylint: disable=C0301~    y~else:~    z~w~|n110 p220 p440 E341 I143 p550|--...
if x:~    y~else:  # pylint: disable=C0301~    z~    w~v~|n110 p220 p440 p550 E352 I153 p660|..---.
if x:~    y~elif z:  # pylint: disable=C0301~    w~else:~    v~u~|n110 p220 p440 L341 p660 E561 I164 p770|..--...
def f():  # pylint: disable=C0301~    x~~    y~z~|p220 p440 d142 p550|----.
class C:  # pylint: disable=C0301~    def f(self):~        pass~    x~y~|p330 d231 p440 C142 p550|----.
class C:~    def f(self):  # pylint: disable=C0301~        pass~    x~y~|p330 d231 p440 C142 p550|.--..
def f(a,~      b):  # pylint: disable=C0301~    x~y~|p330 d131 p440|---.
def f(a,  # pylint: disable=C0301~      b):~    x~y~|p330 d131 p440|---.
def f():  # pylint: disable=C0301~    x~    y  # pylint: enable=C0301~    z~w~|p220 p330 p440 d143 p550|--+-.
if x: y  # pylint: disable=C0301~z~|n110 p110 I112 p220|-.
if x: y = (1,  # pylint: disable=C0301~  2)~z~|n110 p120 I122 p330|--.
@d  # pylint: disable=C0301~def f():~    x~y~|@110 p330 d232 p440|-...
@d~def f():  # pylint: disable=C0301~    x~y~|@110 p330 d232 p440|.--.
while x:  # pylint: disable=C0301~    y~z~|n110 p220 W122 p330|--.
for x in y:  # pylint: disable=all~    z~w~|n110 p220 R122 p330|--.
with x:  # pylint: disable=C~    y~z~|p220 w121 p330|--.
try:  # pylint: disable=C0301~    x~except y:~    z~w~|p220 p440 h341 T142 p550|--...
try:~    x~except y:  # pylint: disable=C0301~    z~w~|p220 p440 h341 T142 p550|..--.
try:~    x~finally:  # pylint: disable=C0301~    z~w~|p220 p440 y341 T142 p550|..--.
match x:  # pylint: disable=C0301~    case 1:~        y~z~|n110 p330 K231 M132 p440|---.
match x:~    case 1:  # pylint: disable=C0301~        y~    case 2:~        z~w~|n110 p330 K231 p550 K451 M153 p660|.--...";

pub(super) const ALONE: &str = r"# pylint: disable=C0301~x~y~|p220 p330|---
x~# pylint: disable=C0301~y~z~|p110 p330 p440|.---
x~# pylint: disable=C0301~y~# pylint: enable=C0301~z~|p110 p330 p550|.--++
'''doc'''~# pylint: disable=C0301~x~|D110 p330|---
'''doc'''~~x~# pylint: disable=C0301~y~|D110 p330 p550|...--
def f():~    # pylint: disable=C0301~    x~    y~z~|p330 p440 d142 p550|----.
def f():~    x~    # pylint: disable=C0301~    y~z~|p220 p440 d142 p550|..--.
def f():~    '''doc'''~    # pylint: disable=C0301~    y~z~|D220 p440 d142 p550|----.
def f():~    # pylint: disable=C0301~    '''doc'''~z~|D330 d131 p440|---.
def f():~    '''doc'''~    # pylint: disable=C0301~z~|D220 d121 p440|..--
def f():~    x~    # pylint: disable=C0301~y~z~|p220 d121 p440 p550|..---
def f():~    x~    if y:~        z~        # pylint: disable=C0301~        w~    v~u~|p220 n330 p440 p660 I363 p770 d173 p880|....--..
def f():~    x~    if y:~        z~    # pylint: disable=C0301~    w~    v~u~|p220 n330 p440 I342 p660 p770 d174 p880|....---.
class C:~    # pylint: disable=C0301~    def f(self):~        pass~~    def g(self):~        pass~x~|p440 d341 p770 d671 C172 p880|-------.
class C:~    x~    # pylint: disable=C0301~    def f(self):~        pass~y~|p220 p550 d451 C152 p660|..---.
class C:~    @d~    # pylint: disable=C0301~    def f(self):~        pass~    x~y~|@220 p550 d452 p660 C162 p770|..----.
if x:~    # pylint: disable=C0301~    y~else:~    z~w~|n110 p330 p550 E451 I153 p660|---...
if x:~    y~else:~    z~    # pylint: disable=C0301~    w~v~|n110 p220 p440 p660 E362 I163 p770|....--.
if x:~    y~elif z:~    # pylint: disable=C0301~    w~else:~    v~u~|n110 p220 p550 L351 p770 E671 I174 p880|..---...
if x:~    y~# pylint: disable=C0301~else:~    z~w~|n110 p220 p550 E451 I153 p660|..----
try:~    x~except y:~    # pylint: disable=C0301~    z~w~|p220 p550 h351 T152 p660|..---.
try:~    x~finally:~    y~    # pylint: disable=C0301~    z~w~|p220 p440 p660 y362 T162 p770|....--.
match x:~    # pylint: disable=C0301~    case 1:~        y~    case 2:~        z~w~|n110 p440 K341 p660 K561 M163 p770|------.
match x:~    case 1:~        y~    # pylint: disable=C0301~    case 2:~        z~w~|n110 p330 K231 p660 K561 M163 p770|...---.
def f(a,~      # pylint: disable=C0301~      b):~    x~    y~z~|p440 p550 d152 p660|.-----
x = [~    # pylint: disable=C0301~    1]~y~|p130 p440|.---
def f():~    x~    y = [~        # pylint: disable=C0301~        1]~z~|p220 p350 d152 p660|...--.
if x: y = (1,~  # pylint: disable=C0301~  2,~  3)~z~|n110 p140 I142 p550|.---.
# pylint: disable=C0301~||-
x~# pylint: disable=C0301|p110|.-
def f():  # pylint: disable=C0301~    x~    # pylint: enable=C0301~    y~z~|p220 p440 d142 p550|--++.
def f():~    # pylint: disable=C0301~    x~~def g():~    x~|p330 d131 p660 d561|---...
# pylint: disable-next=C0301~x~y~|p220 p330|.-.";

pub(super) const OTHERS: &str = r"x  # pylint: disable-next=C0301~y~z~|p110 p220 p330|.-.
x~# pylint: disable-next=C0301~~y~|p110 p440|..-.
# pylint: disable-next=C0301~x  # pylint: enable=C0301~y~|p220 p330|.+.
# pylint: disable=C0301~x~# pylint: disable-next=W~y~|p220 p440|----
def f():  # pylint: disable-next=all~    x~    y~|p220 p330 d132|.-.
# pylint: skip-file~x~|p220|..
'# pylint: disable=C0301'~x~|D110 p220|..";
