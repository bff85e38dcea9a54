//! Requests and replies that several tests share.

// Puts the design `c17`.
pub(super) const PUT_C17: &[u8] =
    b"PUT /designs/c17 HTTP/1.1\r\nContent-Length: 220\r\n\r\n%netlist\nINPUT(1)\nINPUT(2)\nINPUT(3)\nINPUT(6)\nINPUT(7)\nOUTPUT(22)\nOUTPUT(23)\n10 = NAND(1, 3)\n11 = NAND(3, 6)\n16 = NAND(2, 11)\n19 = NAND(11, 7)\n22 = NAND(10, 16)\n23 = NAND(16, 19)\n%scan\n%patterns\nCAPTURE 11111\n%neighbours\n";

// Puts the same bundle under another name.
pub(super) const PUT_OTHER: &[u8] =
    b"PUT /designs/other HTTP/1.1\r\nContent-Length: 220\r\n\r\n%netlist\nINPUT(1)\nINPUT(2)\nINPUT(3)\nINPUT(6)\nINPUT(7)\nOUTPUT(22)\nOUTPUT(23)\n10 = NAND(1, 3)\n11 = NAND(3, 6)\n16 = NAND(2, 11)\n19 = NAND(11, 7)\n22 = NAND(10, 16)\n23 = NAND(16, 19)\n%scan\n%patterns\nCAPTURE 11111\n%neighbours\n";

// Posts a log of a die whose output 22 fails.
pub(super) const POST_FAILS: &[u8] =
    b"POST /designs/c17/dies/D1/logs HTTP/1.1\r\nContent-Length: 57\r\n\r\nFAILLOG 1\ndie D1\ndesign c17\ntested 0 0\nfail 0 out 22\nend\n";

// Posts a log of the same die, which passes.
pub(super) const POST_PASSES: &[u8] =
    b"POST /designs/c17/dies/D1/logs HTTP/1.1\r\nContent-Length: 43\r\n\r\nFAILLOG 1\ndie D1\ndesign c17\ntested 0 0\nend\n";

// Posts a log of a die of the other design.
pub(super) const POST_OTHER: &[u8] =
    b"POST /designs/other/dies/D1/logs HTTP/1.1\r\nContent-Length: 45\r\n\r\nFAILLOG 1\ndie D1\ndesign other\ntested 0 0\nend\n";

// Signs the report over the failing log, by its digest.
pub(super) const SIGN_FIRST: &[u8] =
    b"POST /designs/c17/dies/D1/signoffs HTTP/1.1\r\nContent-Length: 110\r\n\r\n{\"revision\": 1, \"signer\": \"ann\", \"digest\": \"f8b658ff1c7535fcdb3e94bbc59998aca3c639ea60abb600f85c4b974ff6ae23\"}";

pub(super) const GET_SIGN: &[u8] = b"GET /designs/c17/dies/D1/signoffs/1 HTTP/1.1\r\n\r\n";

pub(super) const GET_C17: &[u8] = b"GET /designs/c17 HTTP/1.1\r\n\r\n";

pub(super) const C17_SHOWN: &[u8] =
    b"HTTP/1.1 200 OK\r\nContent-Type: text/plain\r\nContent-Length: 175\r\n\r\ndesign c17\ndigest 0db8ca6599e21775b9088f81c44184e655f03e1daec6da940562db27be24948c\ninputs 5\noutputs 2\nnets 11\npins 14\nchains 0\ncells 0\npatterns 1\npairs 0\nleft-out 0\nfaults 34\n";

pub(super) const CREATED_C17: &[u8] =
    b"HTTP/1.1 201 Created\r\nContent-Type: text/plain\r\nContent-Length: 76\r\n\r\ndesign c17 0db8ca6599e21775b9088f81c44184e655f03e1daec6da940562db27be24948c\n";

pub(super) const CREATED_OTHER: &[u8] =
    b"HTTP/1.1 201 Created\r\nContent-Type: text/plain\r\nContent-Length: 78\r\n\r\ndesign other 0db8ca6599e21775b9088f81c44184e655f03e1daec6da940562db27be24948c\n";

pub(super) const KEPT_C17: &[u8] =
    b"HTTP/1.1 200 OK\r\nContent-Type: text/plain\r\nContent-Length: 76\r\n\r\ndesign c17 0db8ca6599e21775b9088f81c44184e655f03e1daec6da940562db27be24948c\n";

pub(super) const CREATED_LOG_1: &[u8] =
    b"HTTP/1.1 201 Created\r\nContent-Type: text/plain\r\nContent-Length: 6\r\n\r\nlog 1\n";

pub(super) const KEPT_LOG_1: &[u8] =
    b"HTTP/1.1 200 OK\r\nContent-Type: text/plain\r\nContent-Length: 6\r\n\r\nlog 1\n";

pub(super) const KEPT_OTHER: &[u8] =
    b"HTTP/1.1 200 OK\r\nContent-Type: text/plain\r\nContent-Length: 78\r\n\r\ndesign other 0db8ca6599e21775b9088f81c44184e655f03e1daec6da940562db27be24948c\n";

pub(super) const KEPT_LOG_2: &[u8] =
    b"HTTP/1.1 200 OK\r\nContent-Type: text/plain\r\nContent-Length: 6\r\n\r\nlog 2\n";

pub(super) const CREATED_LOG_2: &[u8] =
    b"HTTP/1.1 201 Created\r\nContent-Type: text/plain\r\nContent-Length: 6\r\n\r\nlog 2\n";

pub(super) const CREATED_SIGN: &[u8] =
    b"HTTP/1.1 201 Created\r\nContent-Type: text/plain\r\nContent-Length: 10\r\n\r\nsignoff 1\n";

pub(super) const SIGN_TEXT: &[u8] =
    b"HTTP/1.1 200 OK\r\nContent-Type: text/plain\r\nContent-Length: 104\r\n\r\nsignoff 1\nrevision 1\nsigner ann\ndigest f8b658ff1c7535fcdb3e94bbc59998aca3c639ea60abb600f85c4b974ff6ae23\n";

pub(super) const NO_DESIGN: &[u8] =
    b"HTTP/1.1 404 Not Found\r\nContent-Type: text/plain\r\nContent-Length: 8\r\n\r\nrule 83\n";

pub(super) const KEEPER_FAULT: &[u8] =
    b"HTTP/1.1 503 Service Unavailable\r\nContent-Type: text/plain\r\nContent-Length: 13\r\n\r\nkeeper fault\n";
