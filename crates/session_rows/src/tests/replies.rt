//! The reply to want of memory. All others are among the examples (tests/sessions).
use desk_http::no_memory;

#[test]
fn a_reply_without_memory(rt: HostRuntime) {
    assert_eq!(rt;
        no_memory(),
        b"HTTP/1.1 507 Insufficient Storage\r\nContent-Type: text/plain\r\nContent-Length: 7\r\nConnection: close\r\n\r\nmemory\n".as_slice()
    );
}
