// Programs of one file. A source stands on one line, and below it its findings or `accepted`; a blank line parts programs.

/// A little of everything.
pub const PROGRAMS: &str = r#"
accepted

\u0063lass A { static int x; }
A.java 26..27 V1 StaticField

\u0063lass A { }
accepted

class A { int x = -2147483648; }
accepted

class A { int x = 2147483648; }
A.java 18..28 T29 LiteralRange

class A { static int f(int a, int b) { return (a) + b; } }
accepted

class A { static int f(int a, int b) { return (a) b; } }
A.java 47..48 T9 UnknownName

class A { static final int[] T = {1}; }
A.java 29..30 V1 StaticField

class A { static final int X = 1; A() { X = 2; } }
A.java 40..41 T24 FinalAssign

import org.joe_e.Immutable; class A { int n; } class B extends A implements Immutable {}
A.java 53..54 V2 ImmutableField

import org.joe_e.Immutable; class A { static Immutable f(final StringBuilder s) { return new Immutable() { int n() { return s.length(); } }; } }
A.java 89..92 V7 CapturedLocal

class B { Object o; } class A { A(B b) { b.o = this; } }
A.java 47..51 V6 ThisEscapes

class A { static int f(Object o) { return System.identityHashCode(o); } }
A.java 49..65 V15 NotEnabled

class A { void f() { try { f(); } catch (Throwable t) { } finally { } } }
A.java 41..50 V13 CatchError
A.java 58..65 V14 Finally

class A { String s = "ab
A.java 21..24 L5 OpenText

interface I { String toString(); } class A implements I {}
A.java 41..42 V15 NotEnabled

class A { int f() { } }
A.java 20..21 F4 MissingReturn

class A extends Zed {}
A.java 16..19 N2 Unknown

class A { float x; }
A.java 10..15 S1 Syntax

class A { int n; A(int s) { n = s; } int step(int x) { return n + x; } }
accepted"#;

/// Almost each fault of names, types and flow, with its place.
pub const FAULTS: &str = r#"class A extends Zed { }
A.java 16..19 N2 Unknown

class A extends B { } class B extends A { }
A.java 16..17 N3 Cycle

class A extends B.X { } class B extends A { }
A.java 16..19 N2 Unknown

class A$B {} class A { class B {} }
A.java 29..30 N1 Twice

class A<T> { static void f() { class L { T x; } } }
A.java 41..42 N2 Unknown

class A { private class P { } } class B { A.P p; }
A.java 42..45 N4 NotAccessible

class A<T> { } class B { A b; }
A.java 25..26 N5 OutOfProfile

class A<T> { class B { } }
A.java 19..20 N5 OutOfProfile

class A { int n; long n; }
A.java 22..23 N1 Twice

class A { void f(int a) { } int f(int b) { return b; } }
A.java 32..33 N1 Twice

class A { A() { } A() { } }
A.java 18..19 N1 Twice

class A<T extends U, U extends T> { }
A.java 18..19 N3 Cycle

class A<T, T> { }
A.java 11..12 N1 Twice

import java.lang.Foo; class A { }
A.java 7..20 N2 Unknown

import host.Cell; class Cell { }
A.java 24..28 N1 Twice

class A { class A { } }
A.java 16..17 N1 Twice

class A { void f() throws Missing { } }
A.java 26..33 N2 Unknown

class A { int f(T t) { return 0; } Zed g() { return null; } }
A.java 16..17 N2 Unknown

enum E { A, A }
A.java 12..13 N1 Twice

class A { T f ( ) ; }
A.java 10..11 N2 Unknown

class A extends A { }
A.java 16..17 N3 Cycle

class X { private enum E { A } } class Y { X.E e; }
A.java 43..46 N4 NotAccessible

class G<T> { class H { T x; } }
A.java 19..20 N5 OutOfProfile

class G<T> extends T { }
A.java 19..20 T1 BadSuper

static class A { }
A.java 0..6 T2 BadModifier

class A { B() { } }
A.java 10..11 T3 BadBody

class A { abstract void f(); }
A.java 6..7 T4 NotAbstract

interface I { int equals(Object o); }
A.java 18..24 T5 BadOverride

class G<T> { void f(T t) { } void f(Object o) { } }
A.java 34..35 T6 SameErasure

class A<T> { void f(T t) { } } class B extends A<String> { void f(String s) { } } class C extends B { void f(Object o) { } }
A.java 107..108 T6 SameErasure

interface I<T> { T f(T t); } class A { public Object f(Object o) { return o; } } class B extends A implements I<String> { public String f(String s) { return s; } }
A.java 136..137 T6 SameErasure

class X implements Comparable<X> { public int compareTo(X x) { return 0; } public int compareTo(Object o) { return 0; } }
A.java 86..95 T6 SameErasure

class A { static final int y = 3; void f(int v) { final int y = v; class L { static final int X = y; } } }
A.java 94..95 T7 BadStatic

class A { class I { static { } } }
A.java 20..26 T7 BadStatic

class G<T extends Comparable<T>> { } class A { G<String> a; G<A> b; }
A.java 62..63 T8 BadBound

class A { int x = m + 1 ; }
A.java 18..19 T9 UnknownName

class A { int f() { return super.zz; } }
A.java 33..35 T10 UnknownField

class G<T> { void f(T t) { t.run(); } }
A.java 29..32 T11 NoMethod

class A { A(String x) { } A(StringBuilder x) { } static A a = new A(null); }
A.java 66..67 T12 AmbiguousMethod

class A { A(int x) { } } class B extends A { }
A.java 31..32 T13 NoConstructor

class A { private A() { } } class B extends A { }
A.java 34..35 T14 NotAccessible

interface I { int X = 1; } interface J { int X = 2; } class A implements I, J { int f() { return X; } }
A.java 97..98 T15 AmbiguousField

class A { void f(int x) { int x; } }
A.java 30..31 T16 LocalTwice

class A { { y = 2 ; } int y = new A() ; }
A.java 30..37 T17 NotConvertible

class A { final int x ; A ( A a ) { x . x = 1 ; x = 2 ; } }
A.java 40..41 T18 BadOperand

class G<T> { boolean f(Object o) { return o instanceof T; } }
A.java 55..56 T20 BadInstanceOf

class A { void f(int x) { (+x) = 3; } }
A.java 26..30 T23 BadTarget

class A { final int x = 1; A() { x = 2; } }
A.java 33..34 T24 FinalAssign

class A { static int x = y ; int y = 1 ; }
A.java 25..26 T25 StaticContext

class G<T> { T f() { return new T(); } }
A.java 32..33 T26 AbstractNew

class A { class I { } } class B extends A.I { }
A.java 30..31 T27 NoEnclosing

class A { public static int m() { int x = 1; Runnable r = new Runnable() { public void run() { int y = x; } }; return 1; } }
A.java 103..104 T28 NotFinalCapture

class A { { return; } }
A.java 12..18 T30 BadReturn

class A { int f() throws String { return 1; } }
A.java 25..31 T31 BadThrow

class A { void f() { l: for (;;) { new Object() { void g() { break l; } }; } } }
A.java 67..68 T33 BadLabel

class X { enum E { A, B } int f(E e) { switch (e) { case C: return 1; } return 0; } }
A.java 57..58 T34 BadCase

class G<T> { T[] f() { return new T[3]; } }
A.java 34..35 T35 BadArray

class A { A() { this(); } }
A.java 16..20 T37 CtorCycle

class A { int x = x + 1; }
A.java 18..19 T39 ForwardUse

abstract class A { abstract int f(); } class B extends A { int f() { return super.f(); } }
A.java 82..83 T40 BadSuperCall

interface I { int x; }
A.java 18..19 F1 NotAssigned

class A { int f() { final int x; class L { int y = x; } x = 1; return x; } }
A.java 51..52 F1 NotAssigned

class A { int f() { final int x; class L { int y; L() { class M { int g() { return x; } } } } x = 1; return x; } }
A.java 83..84 F1 NotAssigned

class A { void f() { while (true) { final int x; new Object() { Object o = new Object() { int y = x; }; }; x = 1; } } }
A.java 98..99 F1 NotAssigned

class B { B(int y) { } } class A { Object f() { final int x; Object o = new B(1) { int y = x; }; x = 1; return o; } }
A.java 91..92 F1 NotAssigned

class A { int f(int i) { switch (i) { case 1: final int x; x = 1; case 2: class L { int y = x; } default: return 1; } } }
A.java 92..93 F1 NotAssigned

class A { int f(int i) { final int x; switch (i) { case 1: x = 1; default: class L { int y = x; } } return 1; } }
A.java 93..94 F1 NotAssigned

class A { final int x; A() { x = 1; x = 2; } }
A.java 36..37 F2 AssignedTwice

class A { { throw new RuntimeException(); } }
A.java 10..11 F3 Unreachable

class A { A A ( ) { } }
A.java 20..21 F4 MissingReturn

class A { A() throws Exception { } } class B extends A { }
A.java 43..44 F5 Unreported"#;

/// Sources that differ little from faults and have none, one a line. What they break, if anything, are rules of Joe-E alone.
pub const NEIGHBOURS: &str = r#"interface I { int x = 1; }
class A { final int x; A() { x = 1; } }
class A { int f() { final int x; x = 1; class L { int y = x; } return new L().y; } }
class A { int f() { final int x; class L { int g() { final int x = f(); class M { int y = x; } return x; } } x = 1; return x; } }
class A { int f() { final int x; { x = 1; } class L { class M { int y = x; } } return x; } }
class B { B(int y) { } } class A { Object f() { final int x; return new B(x = 1) { int y = x; }; } }
class A { int f(int i) { switch (i) { case 1: final int x; x = 1; class L { int y = x; } default: return 1; } } }
class A { int f(int i) { final int x; switch (i) { default: x = 1; class L { int y = x; } } return 1; } }
class A { { if (true) throw new RuntimeException(); } }
class A { A a() { return this; } }
class A { A() throws Exception { } } class B extends A { B() throws Exception { } }
enum E { A, B }
class G<T extends Comparable<T>> { } class A { G<String> a; }
final class A { }
abstract class A { abstract void f(); }
interface I { boolean equals(Object o); }
class G<T> { void f(T t) { } void f(String s) { } }
class A<T> { void f(T t) { } } class B extends A<String> { void f(String s) { } } class C extends B { void f(String s) { } }
class A<T> { void f(T t) { } } class B<T> extends A<T> { void f(Object o) { } }
interface I<T> { T f(T t); } class A { public Object f(int x) { return null; } } class B extends A implements I<String> { public String f(String s) { return s; } }
class X implements Comparable<X> { public int compareTo(X x) { return 0; } public int compareTo(String o) { return 0; } }
interface I<T> { T f(T t); } interface J extends I<String> { String f(String s); } interface K extends I<String> { String f(String s); } class A implements J, K { public String f(String s) { return s; } }
interface I<T> { T f(T t); } class A { public String f(String s) { return s; } } class B extends A implements I<String> { }
class B<T> { public Object f(T t) { return t; } } interface I<T> { String f(T t); } class D extends B<String> implements I<String> { public String f(String s) { return s; } }
class A { void f(int x) { (x) = 3; } }
class G<T> { T f; } class A { void f(G<String> g) { g.f += "x"; } }
class A { static class I { static { } } }
class A { int m; int x = m + 1; }
class A { String f() { return super.toString(); } }
class G<T extends Runnable> { void f(T t) { t.run(); } }
class A { A(String x) { } A(StringBuilder x) { } static A a = new A((String) null); }
class A { A(int x) { } } class B extends A { B() { super(1); } }
interface I { int X = 1; } interface J { int X = 2; } class A implements I, J { int f() { return I.X; } }
class A { void f(int x) { { int y; } { int y; } } }
class A { { y = 2; } int y = 1; }
class A { int x; A(A a) { a.x = 1; x = 2; } }
class G<T> { boolean f(Object o) { return o instanceof String; } }
class A { static int x; static int y = x; }
class A { class I { } class B extends I { } }
class A { public static int m() { final int x = 1; Runnable r = new Runnable() { public void run() { int y = x; } }; return 1; } }
class A { { for (;;) break; } }
class A { int f() throws Exception { return 1; } }
class A { void f() { l: for (;;) { break l; } } }
class X { enum E { A, B } int f(E e) { switch (e) { case A: return 1; } return 0; } }
class G<T> { String[] f() { return new String[3]; } }
class A { A() { this(1); } A(int x) { } }
class A { static int y = 1; int x = y; }
abstract class A { int f() { return 1; } } class B extends A { int f() { return super.f(); } }"#;
