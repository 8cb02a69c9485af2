// Arithmetic of the byte field on planes, by gates alone: the substitution box (FIPS 197, section 5.1.1) as the inverse and the affine step, products
// by x, and sums.
ghost use Rattle.planes.specs.ByteField.{xor, inverse, x_times};
ghost use Rattle.planes.specs.Substitution.{affine, sbox};
ghost use Rattle.planes.specs.Lanes.{lane, Shows};

use super::Planes;

// The inverse in the byte field, 0 to 0. A byte is taken as a pair over GF(2^4), an element of which is a pair over GF(2^2): y1 to y21 are its
// coordinates there and their sums, t29 to t40 the inverse of its norm, and u0 to v3 the products with it, taken back at the end. Up to t45 it is the
// circuit of Boyar and Peralta ("A new combinational logic minimization technique with applications to cryptology", 2010), with their names.
pub fn inverted(q: Planes) -> Planes
    ensures { Shows result (λ i. inverse (lane q i)) }
{
    let y14 = q.p4 ^ q.p2;
    let y13 = q.p7 ^ q.p1;
    let y9 = q.p7 ^ q.p4;
    let y8 = q.p7 ^ q.p2;
    let t0 = q.p6 ^ q.p5;
    let y1 = t0 ^ q.p0;
    let y4 = y1 ^ q.p4;
    let y12 = y13 ^ y14;
    let y2 = y1 ^ q.p7;
    let y5 = y1 ^ q.p1;
    let y3 = y5 ^ y8;
    let t1 = q.p3 ^ y12;
    let y15 = t1 ^ q.p2;
    let y20 = t1 ^ q.p6;
    let y6 = y15 ^ q.p0;
    let y10 = y15 ^ t0;
    let y11 = y20 ^ y9;
    let y7 = q.p0 ^ y11;
    let y17 = y10 ^ y11;
    let y16 = t0 ^ y11;
    let t2 = y12 & y15;
    let t7 = y13 & y16;
    let t12 = y9 & y11;
    let t14 = (y14 & y17) ^ t12;
    let t16 = (y8 & y10) ^ t12;
    let t21 = (y3 & y6) ^ t2 ^ t14 ^ y20;
    let t22 = (y4 & q.p0) ^ t2 ^ t16 ^ (y10 ^ y8);
    let t23 = (y5 & y1) ^ t7 ^ t14 ^ (y13 ^ y16);
    let t24 = (y2 & y7) ^ t7 ^ t16 ^ (q.p7 ^ y16);
    let t25 = t21 ^ t22;
    let t26 = t21 & t23;
    let t27 = t24 ^ t26;
    let t29 = (t25 & t27) ^ t22;
    let t33 = ((t22 ^ t26) & (t23 ^ t24)) ^ t24;
    let t36 = t24 & (t27 ^ t33);
    let t37 = t36 ^ (t23 ^ t33);
    let t40 = t25 ^ (t29 & (t27 ^ t36));
    let t41 = t40 ^ t37;
    let t42 = t29 ^ t33;
    let t43 = t29 ^ t40;
    let t44 = t33 ^ t37;
    let t45 = t42 ^ t41;
    let z0 = t44 & y15;
    let z3 = t43 & y16;
    let z6 = t42 & y11;
    let z7 = z6 ^ (t45 & y17);
    let z8 = z6 ^ (t41 & y10);
    let u0 = z0 ^ (t37 & y6) ^ z7;
    let u1 = z0 ^ (t33 & q.p0) ^ z8;
    let u2 = z3 ^ (t40 & y1) ^ z7;
    let u3 = z3 ^ (t29 & y7) ^ z8;
    let z9 = t44 & y12;
    let z12 = t43 & y13;
    let z15 = t42 & y9;
    let z16 = z15 ^ (t45 & y14);
    let z17 = z15 ^ (t41 & y8);
    let v0 = z9 ^ (t37 & y3) ^ z16;
    let v1 = z9 ^ (t33 & y4) ^ z17;
    let v2 = z12 ^ (t40 & y5) ^ z16;
    let v3 = z12 ^ (t29 & y2) ^ z17;
    let a = u2 ^ v2;
    let b = u1 ^ v0;
    let c = v1 ^ b;
    let d = u0 ^ v3;
    let e = u3 ^ a;
    Planes {
        p0: v1,
        p1: a,
        p2: u0 ^ e,
        p3: c ^ e,
        p4: u1 ^ v2,
        p5: u2 ^ (c ^ d),
        p6: a ^ (b ^ d),
        p7: u3 ^ v2,
    }
}

// The affine step.
pub fn affine_step(q: Planes) -> Planes
    ensures { Shows result (λ i. affine (lane q i)) }
{
    let ones = 0xffff_ffff_ffff_ffff;
    let a = q.p0 ^ q.p1;
    let b = q.p2 ^ q.p3;
    let c = q.p4 ^ q.p5;
    let d = q.p6 ^ q.p7;
    let e = a ^ b;
    let f = b ^ c;
    let g = c ^ d;
    let h = d ^ a;
    Planes {
        p0: q.p0 ^ g ^ ones,
        p1: q.p5 ^ h ^ ones,
        p2: q.p2 ^ h,
        p3: q.p7 ^ e,
        p4: q.p4 ^ e,
        p5: q.p1 ^ f ^ ones,
        p6: q.p6 ^ f ^ ones,
        p7: q.p3 ^ g,
    }
}

// The substitution box. It serves the layers above.
pub fn substituted(q: Planes) -> Planes
    ensures { Shows result (λ i. sbox (lane q i)) }
{
    affine_step(inverted(q))
}

// Bytes times x. It serves the layers above.
pub fn doubled(q: Planes) -> Planes
    ensures { Shows result (λ i. x_times (lane q i)) }
{
    Planes {
        p0: q.p7,
        p1: q.p0 ^ q.p7,
        p2: q.p1,
        p3: q.p2 ^ q.p7,
        p4: q.p3 ^ q.p7,
        p5: q.p4,
        p6: q.p5,
        p7: q.p6,
    }
}

// The sums of bytes, lane by lane. It serves the layers above. Written out, since no other function takes the planes of two.
pub fn plus(a: Planes, b: Planes) -> Planes
    ensures { Shows result (λ i. xor (lane a i) (lane b i)) }
{
    Planes {
        p0: a.p0 ^ b.p0,
        p1: a.p1 ^ b.p1,
        p2: a.p2 ^ b.p2,
        p3: a.p3 ^ b.p3,
        p4: a.p4 ^ b.p4,
        p5: a.p5 ^ b.p5,
        p6: a.p6 ^ b.p6,
        p7: a.p7 ^ b.p7,
    }
}
