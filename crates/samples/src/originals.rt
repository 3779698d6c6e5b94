//! Programs that several tables use.

pub const ADD: &str = "SUBROUTINE ADD(I,J,K); K=I+J; END";

pub const LOOP: &str =
    "SUBROUTINE LOOP(N,K); K=0; IF (N.LT.0) GO TO 20; DO 10 I=1,N; 10 K=K+I; 20 K=K+1; 30 RETURN; END";
