//! The inputs of the folder of examples, with their reports, which are worked by hand.
pub const DMZ: &[u8] =
    b": A firewall with a DMZ: the outside reaches two servers there, and one of them reaches the database inside.
interface GigabitEthernet0/0
 nameif outside
 security-level 0
 ip address 203.0.113.2 255.255.255.0
!
interface GigabitEthernet0/1
 nameif inside
 security-level 100
 ip address 10.0.0.1 255.255.255.0
!
interface GigabitEthernet0/2
 nameif dmz
 security-level 50
 ip address 10.1.0.1 255.255.255.0
!
route outside 0.0.0.0 0.0.0.0 203.0.113.1 1
!
access-list OUTSIDE-IN extended permit tcp any host 10.1.0.25 eq 25
access-list OUTSIDE-IN extended permit tcp any host 10.1.0.80 eq 443
access-list DMZ-IN extended permit tcp host 10.1.0.25 any eq 25
access-list DMZ-IN extended permit tcp host 10.1.0.80 host 10.0.0.5 eq 5432
access-group OUTSIDE-IN in interface outside
access-group DMZ-IN in interface dmz
: end
! From the outside: the web server, its port 22, the mail server, and the database.
packet outside tcp 198.51.100.7 40001 10.1.0.80 443 S
packet outside tcp 198.51.100.7 40002 10.1.0.80 22 S
packet outside tcp 198.51.100.7 40003 10.1.0.25 25 S
packet outside tcp 198.51.100.7 40004 10.0.0.5 5432 S
! From the DMZ: the web server to the database and to the outside, the mail server to the outside.
packet dmz tcp 10.1.0.80 50000 10.0.0.5 5432 S
packet dmz tcp 10.1.0.80 50001 198.51.100.7 443 S
packet dmz tcp 10.1.0.25 50002 198.51.100.7 25 S
! From the inside, which has no list: the level rule.
packet inside tcp 10.0.0.5 50003 10.1.0.80 443 S
";

pub const DMZ_ANSWERS: &[u8] = b"startup 10 accepted 0 passed
phase 1
e 0 1.1 open 1
e 1 1.3 open 2
e 2 1.5 open 3
e 3 1.7 open 4
e 4 1.8 open 5
a 1.1 0 open 1 to dmz 198.51.100.7:40001 > 10.1.0.80:443 policy 10 unnat - route connected in OUTSIDE-IN 2 nat - out -
a 1.2 1 drop acl-in policy 10 implicit
a 1.3 1 open 2 to dmz 198.51.100.7:40003 > 10.1.0.25:25 policy 10 unnat - route connected in OUTSIDE-IN 1 nat - out -
a 1.4 2 drop acl-in policy 10 implicit
a 1.5 2 open 3 to inside 10.1.0.80:50000 > 10.0.0.5:5432 policy 10 unnat - route connected in DMZ-IN 2 nat - out -
a 1.6 3 drop acl-in policy 10 implicit
a 1.7 3 open 4 to outside 10.1.0.25:50002 > 198.51.100.7:25 policy 10 unnat - route static 1 in DMZ-IN 1 nat - out -
a 1.8 4 open 5 to dmz 10.0.0.5:50003 > 10.1.0.80:443 policy 10 unnat - route connected in level nat - out -
done 5
";

pub const ROUTING: &[u8] =
    b": Which way a packet leaves: the longest prefix first, then the smaller distance; a connected network has distance 0.
interface GigabitEthernet0/0
 nameif outside
 security-level 0
 ip address 203.0.113.2 255.255.255.0
interface GigabitEthernet0/1
 nameif inside
 ip address 10.0.0.1 255.255.255.0
interface GigabitEthernet0/2
 nameif partner
 security-level 20
 ip address 10.9.0.1 255.255.255.0
interface GigabitEthernet0/3
 nameif lab
 security-level 20
 ip address 10.5.0.1 255.255.255.0
route outside 0 0 203.0.113.1
route outside 172.16.0.0 255.240.0.0 203.0.113.1 10
route partner 172.16.0.0 255.240.0.0 10.9.0.2 5
route lab 172.16.5.0 255.255.255.0 10.5.0.2 200
route outside 10.9.0.0 255.255.255.0 203.0.113.1 1
: end
! The default route.
packet inside tcp 10.0.0.5 40000 198.51.100.9 443 S
! Two routes of one prefix: the smaller distance.
packet inside tcp 10.0.0.5 40001 172.16.1.1 443 S
! A longer prefix beats every distance.
packet inside tcp 10.0.0.5 40002 172.16.5.9 443 S
! A connected network beats a route line of its prefix.
packet inside tcp 10.0.0.5 40003 10.9.0.7 443 S
! Between interfaces of equal levels, within one interface, to the firewall itself, and to a higher level.
packet partner tcp 10.9.0.7 40004 172.16.5.9 443 S
packet outside tcp 198.51.100.9 40005 192.0.2.1 443 S
packet inside tcp 10.0.0.5 40006 10.9.0.1 22 S
packet lab tcp 10.5.0.7 40007 10.0.0.5 443 S
";

pub const ROUTING_ANSWERS: &[u8] = b"startup 9 accepted 0 passed
phase 1
e 0 1.1 open 1
e 1 1.2 open 2
e 2 1.3 open 3
e 3 1.4 open 4
a 1.1 0 open 1 to outside 10.0.0.5:40000 > 198.51.100.9:443 policy 9 unnat - route static 1 in level nat - out -
a 1.2 1 open 2 to partner 10.0.0.5:40001 > 172.16.1.1:443 policy 9 unnat - route static 3 in level nat - out -
a 1.3 2 open 3 to lab 10.0.0.5:40002 > 172.16.5.9:443 policy 9 unnat - route static 4 in level nat - out -
a 1.4 3 open 4 to partner 10.0.0.5:40003 > 10.9.0.7:443 policy 9 unnat - route connected in level nat - out -
a 1.5 4 drop inter-interface policy 9
a 1.6 4 drop intra-interface policy 9
a 1.7 4 drop to-the-box policy 9 partner
a 1.8 4 drop level policy 9
done 4
";

// Lines that are inserted and removed, and bindings that change.
pub const LIST_EDITS: &[u8] =
    b": A configuration typed line by line: lines inserted by their number, lines removed, a binding changed later.
: Each block is an edit, also one that removes. What rules is the configuration after the last of them.
interface GigabitEthernet0/0
 nameif outside
 ip address 203.0.113.2 255.255.255.0
interface GigabitEthernet0/1
 nameif inside
 ip address 10.0.0.1 255.255.255.0
route outside 0 0 203.0.113.9
route outside 0 0 203.0.113.1 20
no route outside 0 0 203.0.113.9
access-list IN permit tcp any host 10.0.0.81 range 8000 8999
access-list IN permit tcp any host 10.0.0.90 eq 22
: These go before both; the one with number 9 goes last. The removal moves that one up to place 4.
access-list IN line 1 remark Inserted later
access-list IN line 2 deny tcp 198.51.100.0 255.255.255.0 any eq 8080
access-list IN line 9 permit tcp any any eq smtp
no access-list IN permit tcp any host 10.0.0.90 eq 22
: The second binding takes the place of the first, so that the other list may go.
access-list OLD permit ip any any
access-group OLD in interface outside
access-group IN in interface outside
no access-list OLD permit ip any any
: end
! 1.1: a port within the range of line 3.
packet outside tcp 198.51.100.9 50001 10.0.0.81 8443 S
! 1.2: one above it: no line matches.
packet outside tcp 198.51.100.9 50002 10.0.0.81 9000 S
! 1.3: another server.
packet outside tcp 198.51.100.9 50003 10.0.0.80 8443 S
! 1.4: the line that was inserted at place 2 denies.
packet outside tcp 198.51.100.9 50004 10.0.0.81 8080 S
! 1.5: from elsewhere it doesn't match, and line 3 permits.
packet outside tcp 192.0.2.9 50005 10.0.0.81 8080 S
! 1.6: the line for this host was removed.
packet outside tcp 192.0.2.9 50006 10.0.0.90 22 S
! 1.7: the last line has moved up to place 4.
packet outside tcp 192.0.2.9 50007 10.0.0.90 25 S
! 1.8: the name `inside` has level 100 where nothing states one, and `outside` 0. The one route line that is left is the first.
packet inside tcp 10.0.0.5 50008 198.51.100.9 443 S
";

pub const LIST_EDITS_ANSWERS: &[u8] = b"startup 15 accepted 0 passed
phase 1
e 0 1.1 open 1
e 1 1.5 open 2
e 2 1.7 open 3
e 3 1.8 open 4
a 1.1 0 open 1 to inside 198.51.100.9:50001 > 10.0.0.81:8443 policy 15 unnat - route connected in IN 3 nat - out -
a 1.2 1 drop acl-in policy 15 implicit
a 1.3 1 drop acl-in policy 15 implicit
a 1.4 1 drop acl-in policy 15 IN 2
a 1.5 1 open 2 to inside 192.0.2.9:50005 > 10.0.0.81:8080 policy 15 unnat - route connected in IN 3 nat - out -
a 1.6 2 drop acl-in policy 15 implicit
a 1.7 2 open 3 to inside 192.0.2.9:50007 > 10.0.0.90:25 policy 15 unnat - route connected in IN 4 nat - out -
a 1.8 3 open 4 to outside 10.0.0.5:50008 > 198.51.100.9:443 policy 15 unnat - route static 1 in level nat - out -
done 4
";

// An office whose lists name objects and groups.
pub const OFFICE: &[u8] = b": Saved
:
ASA Version 9.8(4)
!
hostname office
names
!
interface GigabitEthernet0/0
 description To the provider
 nameif outside
 security-level 0
 ip address 203.0.113.2 255.255.255.0
!
interface GigabitEthernet0/1
 nameif inside
 security-level 100
 ip address 10.20.0.1 255.255.0.0
!
interface GigabitEthernet0/2
 nameif dmz
 security-level 50
 ip address 192.168.50.1 255.255.255.0
!
ftp mode passive
object network WEB
 host 192.168.50.80
 description The public web server
object network MAIL
 host 192.168.50.25
object network DATABASE
 host 10.20.5.32
object network STAFF
 subnet 10.20.8.0 255.255.252.0
object network PRINTERS
 range 10.20.9.200 10.20.9.219
object service WEB-ADMIN
 service tcp destination eq 8443
object service STAFF-SSH
 service tcp source gt 1023 destination eq ssh
object-group network DMZ-SERVERS
 network-object object WEB
 network-object object MAIL
 network-object host 192.168.50.53
object-group network INTERNAL
 network-object object STAFF
 network-object object DATABASE
object-group network PARTNERS
 description Two offices of a partner
 network-object 198.51.100.0 255.255.255.128
 network-object host 198.51.100.200
object-group network ADMINS
 group-object PARTNERS
 network-object host 203.0.113.77
object-group service WEB-SERVICES
 service-object tcp destination eq www
 service-object tcp-udp destination eq https
object-group service STAFF-SERVICES
 group-object WEB-SERVICES
 service-object object STAFF-SSH
object-group service MAIL-PORTS tcp
 port-object eq smtp
 port-object eq 587
 port-object range 993 995
object-group service DNS tcp-udp
 port-object eq domain
object-group protocol TCP-UDP
 protocol-object udp
 protocol-object tcp
object-group icmp-type PING
 icmp-object echo
access-list FROM-OUTSIDE remark The world reaches the servers, and the admins one port more
access-list FROM-OUTSIDE extended permit object-group WEB-SERVICES any object WEB
access-list FROM-OUTSIDE extended permit tcp any object MAIL object-group MAIL-PORTS
access-list FROM-OUTSIDE extended permit object WEB-ADMIN object-group ADMINS object WEB
access-list FROM-OUTSIDE extended permit object-group TCP-UDP any host 192.168.50.53 object-group DNS
access-list FROM-OUTSIDE extended permit icmp any object-group DMZ-SERVERS object-group PING
access-list FROM-OUTSIDE extended deny ip any any log
access-list FROM-DMZ extended permit tcp object WEB object DATABASE eq 5432
access-list FROM-DMZ extended deny ip object-group DMZ-SERVERS object-group INTERNAL
access-list FROM-DMZ extended permit tcp object MAIL any object-group MAIL-PORTS
access-list FROM-DMZ extended permit object-group WEB-SERVICES object-group DMZ-SERVERS any
access-list FROM-INSIDE extended deny ip object PRINTERS any
access-list FROM-INSIDE extended permit object-group STAFF-SERVICES object STAFF any
access-list TO-DMZ extended permit ip any object-group DMZ-SERVERS
access-group FROM-OUTSIDE in interface outside
access-group FROM-INSIDE in interface inside
access-group FROM-DMZ in interface dmz
access-group TO-DMZ out interface dmz
route outside 0.0.0.0 0.0.0.0 203.0.113.1 1
timeout conn 1:00:00 half-closed 0:10:00 udp 0:02:00 icmp 0:00:02
: end
! 1.1 to 1.3, from the world to the web server: its service, another, and that other from an admin of its own.
packet outside tcp 192.0.2.7 40001 192.168.50.80 443 S
packet outside tcp 192.0.2.7 40002 192.168.50.80 8443 S
packet outside tcp 203.0.113.77 40003 192.168.50.80 8443 S
! 1.4 and 1.5, from two addresses of the partner's: one is in the group within the group of admins, one is beside its network.
packet outside tcp 198.51.100.127 40004 192.168.50.80 8443 S
packet outside tcp 198.51.100.128 40005 192.168.50.80 8443 S
! 1.6 to 1.8, the ports of mail, one that isn't among them, and names by TCP.
packet outside tcp 192.0.2.7 40006 192.168.50.25 994 S
packet outside tcp 192.0.2.7 40007 192.168.50.25 110 S
packet outside tcp 192.0.2.7 40008 192.168.50.53 53 S
! 1.9 to 1.13, from the DMZ: the database, the staff's network, mail to the world, the web, and a host that is in no group.
packet dmz tcp 192.168.50.80 50009 10.20.5.32 5432 S
packet dmz tcp 192.168.50.25 50010 10.20.11.255 25 S
packet dmz tcp 192.168.50.25 50011 198.51.100.30 25 S
packet dmz tcp 192.168.50.53 50012 198.51.100.30 443 S
packet dmz tcp 192.168.50.99 50013 198.51.100.30 443 S
! 1.14 to 1.16, from the inside to the world: the last of the printers, the host after it, and one that isn't of the staff.
packet inside tcp 10.20.9.219 50014 198.51.100.30 443 S
packet inside tcp 10.20.9.220 50015 198.51.100.30 443 S
packet inside tcp 10.20.5.32 50016 198.51.100.30 443 S
! 1.17 to 1.19, from the inside to the DMZ: SSH from a high port and from a low one, and a host that the list of the DMZ doesn't have.
packet inside tcp 10.20.8.5 1024 192.168.50.25 22 S
packet inside tcp 10.20.8.5 1023 192.168.50.25 22 S
packet inside tcp 10.20.8.5 50019 192.168.50.99 80 S
";

pub const OFFICE_ANSWERS: &[u8] = b"startup 40 accepted 4 passed
phase 1
e 0 1.1 open 1
e 1 1.3 open 2
e 2 1.4 open 3
e 3 1.6 open 4
e 4 1.8 open 5
e 5 1.9 open 6
e 6 1.11 open 7
e 7 1.12 open 8
e 8 1.15 open 9
e 9 1.17 open 10
a 1.1 0 open 1 to dmz 192.0.2.7:40001 > 192.168.50.80:443 policy 40 unnat - route connected in FROM-OUTSIDE 2 nat - out TO-DMZ 1
a 1.2 1 drop acl-in policy 40 FROM-OUTSIDE 7
a 1.3 1 open 2 to dmz 203.0.113.77:40003 > 192.168.50.80:8443 policy 40 unnat - route connected in FROM-OUTSIDE 4 nat - out TO-DMZ 1
a 1.4 2 open 3 to dmz 198.51.100.127:40004 > 192.168.50.80:8443 policy 40 unnat - route connected in FROM-OUTSIDE 4 nat - out TO-DMZ 1
a 1.5 3 drop acl-in policy 40 FROM-OUTSIDE 7
a 1.6 3 open 4 to dmz 192.0.2.7:40006 > 192.168.50.25:994 policy 40 unnat - route connected in FROM-OUTSIDE 3 nat - out TO-DMZ 1
a 1.7 4 drop acl-in policy 40 FROM-OUTSIDE 7
a 1.8 4 open 5 to dmz 192.0.2.7:40008 > 192.168.50.53:53 policy 40 unnat - route connected in FROM-OUTSIDE 5 nat - out TO-DMZ 1
a 1.9 5 open 6 to inside 192.168.50.80:50009 > 10.20.5.32:5432 policy 40 unnat - route connected in FROM-DMZ 1 nat - out -
a 1.10 6 drop acl-in policy 40 FROM-DMZ 2
a 1.11 6 open 7 to outside 192.168.50.25:50011 > 198.51.100.30:25 policy 40 unnat - route static 1 in FROM-DMZ 3 nat - out -
a 1.12 7 open 8 to outside 192.168.50.53:50012 > 198.51.100.30:443 policy 40 unnat - route static 1 in FROM-DMZ 4 nat - out -
a 1.13 8 drop acl-in policy 40 implicit
a 1.14 8 drop acl-in policy 40 FROM-INSIDE 1
a 1.15 8 open 9 to outside 10.20.9.220:50015 > 198.51.100.30:443 policy 40 unnat - route static 1 in FROM-INSIDE 2 nat - out -
a 1.16 9 drop acl-in policy 40 implicit
a 1.17 9 open 10 to dmz 10.20.8.5:1024 > 192.168.50.25:22 policy 40 unnat - route connected in FROM-INSIDE 2 nat - out TO-DMZ 1
a 1.18 10 drop acl-in policy 40 implicit
a 1.19 10 drop acl-out policy 40 implicit
done 10
";

// A branch office, blocks that change its objects and groups, and the packets that come before and after these.
pub const BRANCH: &[u8] =
    b": A branch office. Its head office reaches it by a group of networks, groups of servers and a group of ports.
interface GigabitEthernet0/0
 nameif outside
 security-level 0
 ip address 203.0.113.2 255.255.255.0
interface GigabitEthernet0/1
 nameif inside
 security-level 100
 ip address 10.0.0.1 255.255.255.0
route outside 0 0 203.0.113.1
object network FILES
 host 10.0.0.20
object network BACKUP
 host 10.0.0.21
object network PHONES
 host 10.0.0.30
object network CAMERA
 host 10.0.0.40
object-group network HEAD-OFFICE
 network-object 198.51.100.0 255.255.255.0
object-group network SERVERS
 network-object object FILES
 network-object object CAMERA
object-group network REACHED
 group-object SERVERS
 network-object object PHONES
object-group service REMOTE tcp
 port-object eq ssh
 port-object eq 8443
access-list IN extended permit tcp object-group HEAD-OFFICE object-group REACHED object-group REMOTE
access-list IN extended permit tcp any object PHONES eq sip
access-group IN in interface outside
";

pub const BRANCH_CHANGES: &[u8] =
    b": What follows changes the branch office. Each block is an edit; what rules is the configuration after the last.
: A block of a group that is there extends it, and with it the groups and the lines that name it.
object-group network SERVERS
 network-object object BACKUP
: A member goes: the second port.
object-group service REMOTE tcp
 no port-object eq 8443
: An object gets another value, wherever it is named.
object network CAMERA
 host 10.0.0.41
: An object can go once no group and no line of a list names it.
object-group network REACHED
 no network-object object PHONES
no access-list IN extended permit tcp any object PHONES eq sip
no object network PHONES
: So can a group. The new line goes to the end of its list; the removal of the one before moves it up to place 1.
access-list IN extended permit tcp object-group HEAD-OFFICE object-group SERVERS object-group REMOTE
no access-list IN extended permit tcp object-group HEAD-OFFICE object-group REACHED object-group REMOTE
no object-group network REACHED
";

pub const BRANCH_PACKETS: &[u8] = b": end
! 1.1: the backup server. 1.2: the other port of the file server, and 1.3 its first.
packet outside tcp 198.51.100.9 50001 10.0.0.21 22 S
packet outside tcp 198.51.100.9 50002 10.0.0.20 8443 S
packet outside tcp 198.51.100.9 50003 10.0.0.20 22 S
! 1.4 and 1.5: the camera at its two addresses.
packet outside tcp 198.51.100.9 50004 10.0.0.40 22 S
packet outside tcp 198.51.100.9 50005 10.0.0.41 22 S
! 1.6 and 1.7: the phones, from the head office and from anywhere.
packet outside tcp 198.51.100.9 50006 10.0.0.30 22 S
packet outside tcp 192.0.2.9 50007 10.0.0.30 5060 S
! 1.8: the file server, from elsewhere than the head office.
packet outside tcp 192.0.2.9 50008 10.0.0.20 22 S
";

pub const BRANCH_ANSWERS: &[u8] = b"startup 14 accepted 0 passed
phase 1
e 0 1.2 open 1
e 1 1.3 open 2
e 2 1.4 open 3
e 3 1.6 open 4
e 4 1.7 open 5
a 1.1 0 drop acl-in policy 14 implicit
a 1.2 0 open 1 to inside 198.51.100.9:50002 > 10.0.0.20:8443 policy 14 unnat - route connected in IN 1 nat - out -
a 1.3 1 open 2 to inside 198.51.100.9:50003 > 10.0.0.20:22 policy 14 unnat - route connected in IN 1 nat - out -
a 1.4 2 open 3 to inside 198.51.100.9:50004 > 10.0.0.40:22 policy 14 unnat - route connected in IN 1 nat - out -
a 1.5 3 drop acl-in policy 14 implicit
a 1.6 3 open 4 to inside 198.51.100.9:50006 > 10.0.0.30:22 policy 14 unnat - route connected in IN 1 nat - out -
a 1.7 4 open 5 to inside 192.0.2.9:50007 > 10.0.0.30:5060 policy 14 unnat - route connected in IN 2 nat - out -
a 1.8 5 drop acl-in policy 14 implicit
done 5
";

pub const BRANCH_CHANGED_ANSWERS: &[u8] = b"startup 23 accepted 0 passed
phase 1
e 0 1.1 open 1
e 1 1.3 open 2
e 2 1.5 open 3
a 1.1 0 open 1 to inside 198.51.100.9:50001 > 10.0.0.21:22 policy 23 unnat - route connected in IN 1 nat - out -
a 1.2 1 drop acl-in policy 23 implicit
a 1.3 1 open 2 to inside 198.51.100.9:50003 > 10.0.0.20:22 policy 23 unnat - route connected in IN 1 nat - out -
a 1.4 2 drop acl-in policy 23 implicit
a 1.5 2 open 3 to inside 198.51.100.9:50005 > 10.0.0.41:22 policy 23 unnat - route connected in IN 1 nat - out -
a 1.6 3 drop acl-in policy 23 implicit
a 1.7 3 drop acl-in policy 23 implicit
a 1.8 3 drop acl-in policy 23 implicit
done 3
";

pub const SHADOWED_LINES: &[u8] =
    b": Two lists with lines that never decide: line 6 of the first, which two lines before it cover together, line 9, which
: matches nothing, and line 3 of the second, of whose two services each has a line before it.
object-group service WEB-AND-NAMES
 service-object tcp destination eq https
 service-object udp destination eq domain
!
access-list OUTSIDE-IN remark The web server
access-list OUTSIDE-IN extended permit tcp any host 10.1.0.80 eq https
access-list OUTSIDE-IN extended permit tcp any host 10.1.0.80 eq www
access-list OUTSIDE-IN extended deny ip 198.51.100.0 255.255.255.128 any
access-list OUTSIDE-IN extended deny ip 198.51.100.128 255.255.255.128 any
access-list OUTSIDE-IN extended permit tcp 198.51.100.0 255.255.255.0 host 10.1.0.25 eq smtp
access-list OUTSIDE-IN extended permit tcp any host 10.1.0.80 range 80 443
access-list OUTSIDE-IN extended permit tcp any host 10.1.0.80 eq ssh inactive
access-list OUTSIDE-IN extended permit udp any6 any
!
access-list INSIDE-IN extended permit tcp 10.0.0.0 255.255.255.0 any eq https
access-list INSIDE-IN extended permit udp 10.0.0.0 255.255.255.0 any eq domain
access-list INSIDE-IN extended permit object-group WEB-AND-NAMES host 10.0.0.5 any
access-list INSIDE-IN extended deny ip any any
: end
";

pub const SHADOWED_LINES_FINDINGS: &[u8] = b"shadow OUTSIDE-IN 2 no tcp 0.0.0.0 0 10.1.0.80 443 -
shadow OUTSIDE-IN 3 no tcp 0.0.0.0 0 10.1.0.80 80 -
shadow OUTSIDE-IN 4 no icmp 198.51.100.0 0 0 0 0.0.0.0
shadow OUTSIDE-IN 5 no icmp 198.51.100.128 0 0 0 0.0.0.0
shadow OUTSIDE-IN 6 yes 1
k c1:3325256831 b3 b4
shadow OUTSIDE-IN 7 no tcp 0.0.0.0 0 10.1.0.80 81 -
shadow OUTSIDE-IN 9 yes 0
shadow INSIDE-IN 1 no tcp 10.0.0.0 0 0.0.0.0 443 -
shadow INSIDE-IN 2 no udp 10.0.0.0 0 0.0.0.0 53
shadow INSIDE-IN 3 yes 0
k b1
k b2
shadow INSIDE-IN 4 no icmp 0.0.0.0 0 0 0 0.0.0.0
done
";
