// Sources that are run, with what Java makes of each.

use crate::calls::report;
use std::alloc::Global;
use std::test::Fail;

/// How `java` ends the `main` of a file, and below it the file, for each; a blank line parts them.
const ENDS: &str = "\
reply i:3
class One {
    int n;
    int add(int x) { n = n + x; return n; }
    static int main() { One o = new One(); o.add(1); return o.add(2); }
}

reply i:3
class One {
    static int main() { return 1 + 2; }
}

reply i:134
class One {
    static int main() { int a = 3; int b = a * 4; a = b - 1; return a * b + 2; }
}

reply i:-2147483648
class One {
    static int main() { return 2147483647 + 1; }
}

reply i:-2147483648
class One {
    static int main() { int a = 2147483647; a = a + 1; return a; }
}

reply i:-65537
class One {
    static int main() { int a = 65537; int b = 65535; return a * b * a; }
}

reply i:2147483647
class One {
    static int main() { int a = 0 - 2147483647; return a - 2; }
}

reply i:3
class One {
    static int main() { return 10 - 4 - 3; }
}

reply i:19
class One {
    static int main() { return 2 + 3 * 4 - 5 * (6 - 7); }
}

reply i:175
class One {
    static int a(int x) { return b(x + 1) + 1; }
    static int b(int x) { return c(x * 2) + c(x); }
    static int c(int x) { return d(x, x) - 3; }
    static int d(int x, int y) { return x * y; }
    static int main() { return a(5); }
}

reply i:79
class One {
    int n;
    int put(int x) { n = x; return n; }
    int get() { return n; }
    static int main() {
        One a = new One(); One b = new One(); a.put(7); b.put(9); return a.get() * 10 + b.get();
    }
}

reply i:0
class One {
    int n;
    int get() { return n; }
    static int main() { One o = new One(); return o.get(); }
}

reply i:50
class One {
    int n;
    int put(int n) { n = n + 1; return n; }
    int get() { return n; }
    static int main() { One o = new One(); int r = o.put(4); return r * 10 + o.get(); }
}

reply i:12
class One {
    int n;
    int next() { n = n + 1; return n; }
    int two(int a, int b) { return a * 10 + b; }
    int run() { return two(next(), next()); }
    static int main() { One o = new One(); return o.run(); }
}

reply i:-51
class One {
    int n;
    int next() { n = n * 3 + 1; return n; }
    int run() { return next() - next() * next(); }
    static int main() { One o = new One(); return o.run(); }
}

reply i:24
class One {
    int a;
    int b;
    int run() { a = 5; b = a + 1; a = b * a; return a - b; }
    static int main() { One o = new One(); return o.run(); }
}

reply i:126
class One {
    int n;
    static int twice(int x) { return x + x; }
    int run(int x) { n = twice(x); return twice(n) + n; }
    static int main() { One o = new One(); return o.run(21); }
}

reply i:16
class One {
    int n;
    int put(int x) { n = x; return x; }
    int run() { One o = new One(); o.put(3); n = n + 1; return o.put(5) + n; }
    static int main() { One o = new One(); o.put(10); return o.run(); }
}

reply i:72
class One {
    int n;
    int run() { n = 2; int m = n; int n = 7; return n * 10 + m; }
    static int main() { One o = new One(); return o.run(); }
}

reply i:12
class One {
    int One;
    int f;
    int f(int f) { One = f; return One + f; }
    static int main() { One One = new One(); return One.f(6); }
}

reply i:1
class $ {
    static int _(int $a_1, int A) { return $a_1 - A; }
    static int main() { return 1; }
}

reply i:5
class One {
    static int f(int x) { return x; }
    static int main() { f(3); f(f(4)); return f(5); }
}

reply i:-1461513790
class One {
    static int f(int x) { return g(x + 1); }
    static int g(int x) { return h(x + 1) + h(x + 2); }
    static int h(int x) { return i(x) + i(x + 1); }
    static int i(int x) { return x * x; }
    static int main() { int s = f(1); s = s + f(s); s = s - f(s); return s; }
}

reply i:17
class A {
    static int main() {
        int sum = 0;
        for (Shape x : new Shape[] { new Square(3), new Two(4, 2) }) sum += x.area();
        return sum;
    }
}
interface Shape { int area(); }
class Square implements Shape {
    final int side;
    Square(int side) { this.side = side; }
    public int area() { return side * side; }
}
class Two extends Square {
    final int other;
    Two(int side, int other) { super(side); this.other = other; }
    public int area() { return side * other; }
}

reply i:6
class A {
    static int main() {
        int n = 0;
        out: for (int i = 0; ; i++) {
            switch (i) { case 0: n += 1; case 1: n += 2; break; case 2: continue out; default: break out; }
        }
        return n + 1;
    }
}

reply i:42
class A {
    static int main() { final int k = 40; class L { int f() { return k + 2; } } return new L().f(); }
}

reply i:7
class A {
    static int main() {
        int[] a = new int[2];
        try { return a[2]; } catch (IndexOutOfBoundsException e) { return 7; }
    }
}

reply i:-1
class A { static int main() { long x = 1L << 32; return (int) (x >> 32) - (char) 2; } }

reply i:2
class A {
    enum E { P, Q, R }
    static int at(E e) { switch (e) { case P: return 0; case R: return 2; default: return 1; } }
    static int main() { return at(E.R); }
}

reply i:2
class A { static int main() { B<Z> a = new V(); return a.f(new Z()); } }
class B<X> { int f(X v) { return 1; } }
class Y { }
class Z extends Y { }
class C<X extends Y> extends B<X> { int f(Y v) { return 2; } }
class V extends C<Z> { }

thrown
class A { static int main() { int z = 0; return 1 / z; } }

thrown
class A { static int main() { Object[] a = new A[1]; a[0] = new Object(); return 1; } }

spent
class A { static int f(int x) { return f(x); } static int main() { return f(0); } }

spent
class A { static int f(int x) { return 1 + f(x + 1); } static int main() { return f(0); } }

spent
class A {
    int n;
    int f() { n = n + 1; return f() + n; }
    static int main() { A a = new A(); return a.f(); }
}

reply i:3022
class One {
    int a;
    int b;
    int c;
    int d;
    int set(int x) { d = x; a = d + 1; c = a * b + d; return a * 1000 + b * 100 + c * 10 + d; }
    static int main() { One o = new One(); o.set(1); return o.set(2); }
}

reply i:2147483647
class A { static int main() { return 2147483647; } }

reply i:1
class A { static int main() { return 1; } }

reply i:1
class A { static int main() { return 01; } }

reply i:0
class A { static int main() { return 0; } }

reply i:1
class A { static int main() { return 0x1; } }

reply i:0
class A { static int main() { int x1 = 0; return x1; } }

reply i:1
class A { static int main() { int a = 1 ; return a; } }

reply i:1
class String { static int main() { return 1; } }

reply i:1
class string { static int main() { return 1; } }

reply i:1
class NumberFormatException { static int main() { return 1; } }

reply i:1
class NumberFormatExceptions { static int main() { return 1; } }

reply i:1
class A { int hashcode() { return 1; } static int main() { return 1; } }

reply i:1
class A { static int tostring() { return 1; } static int main() { return 1; } }

reply i:1
class A { int finalise() { return 1; } static int main() { return 1; } }

reply i:1
class A { int a; int b; static int main() { return 1; } }

reply i:1
class A { static int f() { return 1; } static int f(int x) { return 1; } static int main() { return 1; } }

reply i:1
class A { static int f() { return 1; } static int g(int x) { return 1; } static int main() { return 1; } }

reply i:1
class A { static int f(int a, int b) { return 1; } static int main() { return 1; } }

reply i:1
class A { static int main() { int a = 1; int b = 2; return a; } }

reply i:1
class A { static int f(int a) { int b = 2; return a; } static int main() { return 1; } }

reply i:1
class A { static int main() { int a = 1; A b = new A(); return 1; } }

reply i:2
class A { static int main() { int b = 2; int a = b; return a; } }

reply i:1
class A { int a; int f() { int b = a; return b; } static int main() { return 1; } }

reply i:1
class A { static int f(int x) { int f = f(1); return f; } static int main() { return 1; } }

reply i:1
class A { static int main() { int b = 1; int a = b; return a; } }

reply i:1
class A { static int f(int x) { return x; } static int main() { return 1; } }

reply i:1
class A { int n; int f() { return n; } static int main() { return 1; } }

reply i:1
class A { int n; int f() { n = 1; return 1; } static int main() { return 1; } }

reply i:1
class A { static int main() { int x = 0; x = 1; return x; } }

reply i:1
class A { static int f() { return 1; } static int main() { return f(); } }

reply i:1
class A { static int f() { return 1; } static int main() { A a = new A(); return a.f(); } }

reply i:1
class A { int f() { return 1; } static int main() { A a = new A(); return a.f(); } }

reply i:1
class A { static int g() { return 1; } static int main() { return g(); } }

reply i:1
class A { static int f(int a, int b) { return a; } static int main() { return f(1, 2); } }

reply i:1
class A { int f() { return 1; } static int main() { A a = new A(); int x = a.f(); return x; } }

reply i:1
class A { static int main() { A a = new A(); return 1; } }

reply i:1
class A { int a; int f() { a = 1; A a = new A(); return 1; } static int main() { return 1; } }

reply i:1
class A { int a; int f() { a = 1; A b = new A(); return 1; } static int main() { return 1; } }

reply i:1
class A { static int f() { return 1; } static int main() { return A.f(); } }

reply i:1
class A { int f() { return 1; } static int main() { A A = new A(); return A.f(); } }

reply i:1
class A { int f() { return 1; } static int main() { return 1; } }

reply i:1
class A { static int main() { return 1; }  }

reply i:1
class A { /* */ static int main() { return 1; } }

reply i:1
class A {       static int main() { return 1; } }

reply i:1
class \\u0041 { static int main() { return 1; } }

reply i:1
class A { static int main() { return 1; } };

reply i:2
class A { static int main() { return 1 - -1; } }

reply i:2
class A { static int main() { return 1 - (0-1); } }

reply i:2
class A { static int main() { int a = 1; a++; return a; } }

reply i:2
class A { static int main() { int a = 1; a=a+1; return a; } }

reply i:2
class A { static int main() { int a = 1; a += 1; return a; } }

reply i:1
class A { static int main() { int a = 1; a = 1; return a; } }

reply i:2
class A { static int main() { return 4 / 2; } }

reply i:8
class A { static int main() { return 4 * 2; } }

reply i:1
public class A { static int main() { return 1; } }

reply i:1
class A { static int main() { int a; return 1; } }

reply i:1
class A { static int main() { int a = 1; return 1; } }

reply i:1
class A { static int main() { int a = 1; return a; } }

reply i:1
class A { static int gotos() { return 1; } static int main() { return 1; } }

reply i:1
class A { static int main() { int True = 1; return 1; } }

reply i:1
class A { static int f(int a) { return a; } static int main() { return 1; } }

reply i:1
class A { static int f(int a) { return a; } static int main() { return f(1); } }

reply i:1
class A { int a = 1; static int main() { return 1; } }

reply i:1
class A { int a; static int main() { return 1; } }

reply i:1
class A { A a; static int main() { return 1; } }
";

/// How `java` ends the initializers of a file, with the class whose are the innermost, and below it the file.
const INITS: &str = "\
init A thrown
class A {
    static final int X = 1 / z();
    static int z() { return 0; }
    static int main() { return 1; }
}

init A$B thrown
class A {
    static class B { static final int X = 1 / z(); static int z() { return 0; } }
    static int main() { return 1; }
}

init B thrown
class A { static final int X = B.Y; static int main() { return 1; } }
class B { static final int Y = 1 / z(); static int z() { return 0; } }

init A spent
class A {
    static final int X = f(0);
    static int f(int x) { return f(x); }
    static int main() { return X; }
}
";

/// Files whose first class has no `static int main()`.
const LACKING: &str = "\
class A { int f() { return 1; } }

class A { static int main(int a) { return 1; } }

class A { int main() { return 1; } }

class A { }
class B { static int main() { return 1; } }

class A { static long main() { return 1; } }
";

/// Files that `javac` refuses, and one with a variable that all could read.
const REFUSED: &str = "\
class A { static int main() { return 2147483648; } }

class A { static int main() { return 1L; } }

class A { static int main() { return 1.; } }

class A { static int main() { int a = 1a; return 1; } }

class A { int hashCode() { return 1; } static int main() { return 1; } }

class A { static int toString() { return 1; } static int main() { return 1; } }

class A { int finalize() { return 1; } static int main() { return 1; } }

class A { int a; int a; static int main() { return 1; } }

class A { static int f(int a, int a) { return 1; } static int main() { return 1; } }

class A { static int main() { int a = 1; int a = 2; return a; } }

class A { static int f(int a) { int a = 2; return a; } static int main() { return 1; } }

class A { static int main() { int a = 1; A a = new A(); return 1; } }

class A { static int main() { int a = a; return 1; } }

class A { int a; int f() { int a = a; return a; } static int main() { return 1; } }

class A { static int f(int x) { int f = f + 1; return x; } static int main() { return 1; } }

class A { static int main() { int a = b; int b = 1; return a; } }

class A { static int main() { return x; } }

class A { int n; static int main() { return n; } }

class A { int n; static int main() { n = 1; return 1; } }

class A { static int main() { x = 1; return 1; } }

class A { int f() { return 1; } static int main() { return f(); } }

class A { static int main() { return g(); } }

class A { static int f(int a) { return a; } static int main() { return f(1, 2); } }

class A { static int f(int a) { return a; } static int main() { return f(); } }

class A { int f() { return 1; } static int main() { int x = a.f(); A a = new A(); return x; } }

class A { static int main() { A a = new A(); return a; } }

class A { int f() { return 1; } static int main() { int a = 1; return a.f(); } }

class A { static int main() { B a = new B(); return 1; } }

class A { static int main() { A a = new B(); return 1; } }

class A { static int main() { return 1; } // no }

class A { static int main() { return 1; }

class A { static int main() { int a = 1; } }

class A { static int main() { return 1; int a = 1; } }

class A { static int goto() { return 1; } static int main() { return 1; } }

class A { static int main() { int true = 1; return 1; } }

class A { static int f(int a,) { return a; } static int main() { return 1; } }

class A { static int f(int a) { return a; } static int main() { return f(1,); } }

class A { static int main() { int a = 1; a; return a; } }

class A { static int x; static int main() { return x; } }
";

/// What `joee run A.java` puts for a file, and after it the number of its status.
fn run(alloc: Global, file: &str) -> Result<String, Fail> {
    report(alloc, "joee run A.java", &[("A.java", file)])
}

#[test]
fn loads_and_mains_end_as_java_s(rt: HostRuntime) -> Result<(), Fail> {
    let alloc = rt.alloc();
    for (table, status) in [(ENDS, 0), (INITS, 9)] {
        for case in table.split("\n\n") {
            let (end, file) = case.split_once('\n').ok_or("an end without its file")?;
            let want = format!(in alloc; "{end}\n{status}")?;
            assert_eq!(rt; run(alloc, file)?.as_str(), want.as_str(), "at {file}");
        }
    }
    Ok(())
}

#[test]
fn classes_without_main_are_not_built(rt: HostRuntime) -> Result<(), Fail> {
    let alloc = rt.alloc();
    for file in LACKING.split("\n\n") {
        assert_eq!(rt;
            run(alloc, file)?.as_str(),
            "notbuilt A.java\n12",
            "at {file}"
        );
    }
    assert_eq!(rt; run(alloc, "")?.as_str(), "notbuilt A.java\n12");
    Ok(())
}

#[test]
fn what_java_refuses_is_refused(rt: HostRuntime) -> Result<(), Fail> {
    let alloc = rt.alloc();
    for file in REFUSED.split("\n\n") {
        let put = run(alloc, file)?;
        assert_eq!(rt; put.ends_with("\n1"), true, "at {file}");
    }
    Ok(())
}
